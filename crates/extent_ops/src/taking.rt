ghost use Rattle.std.specs.Prelude.{◌≡◌, ◌++◌, ◌+◌, ◌-◌, ◌*◌, ◌^◌, ◌<◌, ◌≤◌, ◌&&◌, ℕ, All, IfOk, List, is_some, length, nat_le, option_map, slice_get};
ghost use Rattle.extent_ops.specs.Content.{AreFreshWithin, AreLookedAt, AreOfContent, HavePlaces, IsContent, IsNear, TakesBlocks, given_by, hidden_if, is_covered_above};
ghost use Rattle.extent_ops.specs.Above.{holes_to_hide};
ghost use Rattle.extent_ops.specs.Bounds.{blocks_in_all};
ghost use Rattle.extent_ops.specs.Cutting.{cut_all, updates_of};
ghost use Rattle.extent_ops.specs.Looking.{IsUpTo};
ghost use Rattle.extent_ops.specs.Placing.{MayBePlaced};
ghost use Rattle.extent_ops.specs.Stretches.{RiseFrom};
ghost use Rattle.key_meaning.specs.Checks.{AreBlocksPlaced, IsCoveredOnce};
ghost use Rattle.key_meaning.specs.Visible.{snaps_of};
ghost use Rattle.snap_tree.specs.Snaps.{parent_of};
ghost use Rattle.vol_types.specs.KeyMaps.{IsKeyMap, KeyMap, with_updates};
ghost use Rattle.vol_types.specs.Standing.{IsUpdate};
ghost use Rattle.vol_types.specs.declared.layout.Layout.{Layout};
ghost use Rattle.vol_types.specs.declared.pointers.Place.{Place};

use crate::above::{covered_above, holes_of};
use crate::cutting::{Changes, changes_of, cut_all, stretches_of, updates_of};
use crate::stretches::Stretch;
use snap_tree::SnapTree;
use std::alloc::{AllocError, Global};
use vol_types::{Key, Keys, Updates};

/// The updates after which an id has fresh extents in a file, and nothing else is seen to change. The keys are those of the file
/// that cover a block from the first fresh one to the last, and maybe others of the file. Where they and the fresh ones are in
/// range the updates may be made. They stand at most as many blocks behind the last fresh one as the longest of the keys has.
/// There are no more of them than keys and two for each fresh one; where the id's own extents don't overlap, no more than fresh
/// blocks and two for each fresh extent. Where each block had a place of its own, and the fresh ones have, each has one
/// afterwards. Keys of other ids cost a step each, those of the id and the fresh ones some logarithms.
pub fn overwrite(alloc: Global, keys: &Keys, id: u32, fresh: &Keys) -> Result<Updates, AllocError>
    ensures taken { IfOk result (λ updates. (map : KeyMap) (file first last : ℕ) → IsKeyMap map
        → IsCoveredOnce map file id → All (λ entry. HavePlaces entry.1) map.extents
        → AreFreshWithin file id first last fresh.now → AreLookedAt map file first last keys.now
        → TakesBlocks map (with_updates updates map) file id
        (λ block. is_some (given_by fresh.now block)) (given_by fresh.now)) }
    ensures own { IfOk result (AreOfContent id) }
    ensures fits { IfOk result (λ updates. (file first last : ℕ)
        → AreFreshWithin file id first last fresh.now → All (λ key. IsContent key.value) keys.now
        → All (λ key. IsContent key.value) fresh.now → All IsUpdate updates) }
    ensures near { IfOk result (λ updates. (file first last longest : ℕ)
        → AreFreshWithin file id first last fresh.now → All (λ key. IsUpTo longest key.value) keys.now
        → All (IsNear file first last longest) updates) }
    ensures placed { IfOk result (λ updates. (map : KeyMap) (file first last : ℕ)
        (nodes : List Place) (layout : Layout) → IsKeyMap map
        → All (λ entry. HavePlaces entry.1) map.extents
        → AreFreshWithin file id first last fresh.now → AreLookedAt map file first last keys.now
        → AreBlocksPlaced map nodes layout → MayBePlaced map nodes layout fresh.now
        → AreBlocksPlaced (with_updates updates map) nodes layout) }
    ensures few { IfOk result (λ updates. (file first last : ℕ)
        → AreFreshWithin file id first last fresh.now
        → length updates ≤ length keys.now + 2 * length fresh.now) }
    ensures few_by_blocks { IfOk result (λ updates. (map : KeyMap) (file first last : ℕ) → IsKeyMap map
        → IsCoveredOnce map file id → AreFreshWithin file id first last fresh.now
        → AreLookedAt map file first last keys.now
        → length updates ≤ blocks_in_all fresh.now + 2 * length fresh.now) }
{
    let Some(file) = file_of(fresh.as_slice()) else {
        return Ok(Updates::new(alloc));
    };
    let stretches = stretches_of(alloc, fresh.as_slice())?;
    let given = changes_of(alloc, fresh.as_slice())?;
    updates_to_take(
        alloc,
        keys.as_slice(),
        file,
        id,
        stretches.as_slice(),
        given,
    )
}

/// The updates after which an id of the tree shows nothing of some blocks of a file, from the first to the last one: it has holes
/// where an ancestor has an extent, and else nothing of its own. The keys are those of the file that cover one of the blocks, and
/// maybe others of the file. Where they are in range the updates may be made. They stand at most as many blocks behind the last
/// block as the longest of the keys has. There is at most one more of them than there are keys; where the id's own extents don't
/// overlap, at most two more than blocks. Where each block had a place of its own, each has one afterwards. Each key costs a
/// search in the tree and some logarithms.
pub fn punch(
    alloc: Global,
    keys: &Keys,
    tree: &SnapTree,
    id: u32,
    first: u64,
    last: u64,
) -> Result<Updates, AllocError>
    ensures taken { IfOk result (λ updates. (map : KeyMap) (file : ℕ) → IsKeyMap map
        → snaps_of map ≡ tree.now → IsCoveredOnce map file id
        → All (λ entry. HavePlaces entry.1) map.extents → last < 2 ^ 64 - 1
        → AreLookedAt map file first last keys.now
        → TakesBlocks map (with_updates updates map) file id
        (λ block. nat_le first block && nat_le block last)
        (λ block. hidden_if (is_covered_above map id file block))) }
    ensures own { IfOk result (AreOfContent id) }
    ensures fits { All (λ key. IsContent key.value) keys.now → IfOk result (All IsUpdate) }
    ensures near { IfOk result (λ updates. (file longest : ℕ)
        → All (λ key. key.pos.inode ≡ file) keys.now → All (λ key. IsUpTo longest key.value) keys.now
        → All (IsNear file first last longest) updates) }
    ensures placed { IfOk result (λ updates. (map : KeyMap) (file : ℕ) (nodes : List Place)
        (layout : Layout) → IsKeyMap map → All (λ entry. HavePlaces entry.1) map.extents
        → AreLookedAt map file first last keys.now → AreBlocksPlaced map nodes layout
        → AreBlocksPlaced (with_updates updates map) nodes layout) }
    ensures few { IfOk result (λ updates. length updates ≤ length keys.now + 1) }
    ensures few_by_blocks { IfOk result (λ updates. (map : KeyMap) (file : ℕ) → IsKeyMap map
        → IsCoveredOnce map file id → last < 2 ^ 64 - 1 → AreLookedAt map file first last keys.now
        → length updates ≤ (last + 1 - first) + 2) }
{
    tree.ids_fit();
    if last < first {
        return Ok(Updates::new(alloc));
    }
    let Some(file) = file_of(keys.as_slice()) else {
        return Ok(Updates::new(alloc));
    };
    let stretch = Stretch {
        first,
        end: last.saturating_add(1),
    };
    let given = holes_to_hide(alloc, keys.as_slice(), tree, id, stretch)?;
    updates_to_take(alloc, keys.as_slice(), file, id, &[stretch], given)
}

// The changes that put holes over what ancestors of an id have in a stretch.
fn holes_to_hide(
    alloc: Global,
    keys: &[Key],
    tree: &SnapTree,
    id: u32,
    stretch: Stretch,
) -> Result<Changes, AllocError>
    ensures { IfOk result (λ changes.
        changes ≡ holes_to_hide tree.now (parent_of tree.now id) stretch keys.now) }
{
    let Some(parent) = tree.parent(id) else {
        return Ok(Changes::new(alloc));
    };
    let parts = covered_above(alloc, keys, tree, parent, stretch)?;
    holes_of(alloc, parts.as_slice())
}

// The updates that cut some stretches out of the keys of an id, and put what is given over them.
fn updates_to_take(
    alloc: Global,
    keys: &[Key],
    file: u64,
    id: u32,
    stretches: &[Stretch],
    mut given: Changes,
) -> Result<Updates, AllocError>
    ensures are { RiseFrom 0 stretches.now → IfOk result (λ updates.
        updates ≡ updates_of file id (cut_all id stretches.now keys.now ++ given)) }
    ensures own { IfOk result (AreOfContent id) }
{
    let mut changes = cut_all(alloc, keys, id, stretches)?;
    changes.append(&mut given)?;
    updates_of(alloc, file, id, changes)
}

// The file that the first of some keys is of.
fn file_of(keys: &[Key]) -> Option<u64>
    ensures { result ≡ option_map (λ key. key.pos.inode) (slice_get keys.now 0) }
{
    match keys.first() {
        None => None,
        Some(key) => Some(key.pos.inode),
    }
}
