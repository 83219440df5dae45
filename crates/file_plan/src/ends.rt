ghost use Rattle.std.specs.Prelude.{◌≡◌, ◌/◌, ◌≤◌, length, replicate, is_some, option_and_then, IfErr, IfOk, IfSome};
ghost use Rattle.file_plan.specs.BlockIo.{Holds, OnlyReads, ReadsBlock};
ghost use Rattle.file_plan.specs.BlockIo.{GoesOn as IoGoesOn};
ghost use Rattle.file_plan.specs.Content.{AreExtentsInRange};
ghost use Rattle.file_plan.specs.Ends.{IsEndWritten, end_bytes, end_of, has_end, zeroed};
ghost use Rattle.key_meaning.specs.Forest.{Read};
ghost use Rattle.file_plan.specs.Runs.{bytes_of};
ghost use Rattle.file_plan.specs.Seen.{IsSeenUpTo};
ghost use Rattle.extent_ops.specs.Content.{given_by};
ghost use Rattle.key_view.specs.Holds.{IsCause};
ghost use Rattle.key_view.specs.Seen.{GoesOn};
ghost use Rattle.vol_types.specs.KeyMaps.{KeyMap};
ghost use Rattle.vol_types.specs.Limits.{block_size};

use crate::sizes::BLOCK;
use crate::{Contents, shown_block, write_run};
use key_view::Hold;
use snap_tree::SnapTree;
use std::alloc::{AllocError, Global};
use vol_types::{BLOCK_SIZE, Bytes, Keys};

/// The bytes of the block in which a file of this size ends, with zeros behind the end: what is written where the file grows. None
/// where it ends with a block, or the id of the tree shows none there. It costs what `shown_block` does.
pub fn end_block<V: Contents>(
    alloc: Global,
    view: &mut V,
    tree: &SnapTree,
    id: u32,
    number: u64,
    size: u64,
) -> Result<Option<Bytes>, Hold>
    ensures bytes { IfOk result (λ end. (keys : KeyMap) (read : Read)
        → IsSeenUpTo keys (V.made view.new) tree.now (V.most view.new) → Holds read (V.io view.new)
        → AreExtentsInRange keys → end ≡ end_bytes keys read id number size) }
    ensures there { IfOk result (λ end. (keys : KeyMap)
        → IsSeenUpTo keys (V.made view.new) tree.now (V.most view.new)
        → AreExtentsInRange keys → is_some end ≡ has_end keys id number size) }
    ensures reads { IfOk result (λ _. (keys : KeyMap)
        → IsSeenUpTo keys (V.made view.new) tree.now (V.most view.new)
        → AreExtentsInRange keys
        → ReadsBlock (end_of keys id number size) (V.io view.old) (V.io view.new)) }
    ensures size { IfOk result (λ end. IfSome end (λ bytes. length bytes ≡ block_size)) }
    ensures looks { GoesOn (V.made view.old) (V.made view.new) }
    ensures ids { V.told view.new ≡ V.told view.old }
    ensures longest { V.most view.new ≡ V.most view.old }
    ensures io { OnlyReads (V.io view.old) (V.io view.new) }
    ensures cause { IfErr result (IsCause (V.held view.new)) }
{
    let inside = size % BLOCK;
    if inside == 0 {
        return Ok(None);
    }
    match shown_block(alloc, view, tree, id, number, size / BLOCK)? {
        None => Ok(None),
        Some(bytes) => Ok(Some(zeroed(alloc, bytes, inside)?)),
    }
}

/// Writes that block anew, where there is one, at a place reserved for it, and gives its key in the id.
pub fn write_end<V: Contents>(
    alloc: Global,
    view: &mut V,
    tree: &SnapTree,
    id: u32,
    number: u64,
    size: u64,
) -> Result<Keys, Hold>
    ensures bytes { IfOk result (λ fresh. (keys : KeyMap) (read : Read)
        → IsSeenUpTo keys (V.made view.new) tree.now (V.most view.new) → Holds read (V.io view.new)
        → AreExtentsInRange keys → option_and_then (bytes_of read)
        (given_by fresh (size / block_size)) ≡ end_bytes keys read id number size) }
    ensures there { IfOk result (λ fresh. (keys : KeyMap)
        → IsSeenUpTo keys (V.made view.new) tree.now (V.most view.new)
        → AreExtentsInRange keys
        → is_some (given_by fresh (size / block_size)) ≡ has_end keys id number size) }
    ensures reads { IfOk result (λ _. (keys : KeyMap)
        → IsSeenUpTo keys (V.made view.new) tree.now (V.most view.new)
        → AreExtentsInRange keys
        → ReadsBlock (end_of keys id number size) (V.io view.old) (V.io view.new)) }
    ensures written { IfOk result (λ fresh. IsEndWritten number id size fresh (V.io view.old)
        (V.io view.new)) }
    ensures looks { GoesOn (V.made view.old) (V.made view.new) }
    ensures ids { V.told view.new ≡ V.told view.old }
    ensures longest { V.most view.new ≡ V.most view.old }
    ensures io { IoGoesOn (V.io view.old) (V.io view.new) }
    ensures cause { IfErr result (IsCause (V.held view.new)) }
{
    match end_block(alloc, view, tree, id, number, size)? {
        None => Ok(Keys::new(alloc)),
        Some(bytes) => write_run(alloc, view, id, number, size / BLOCK, &[bytes]),
    }
}

// The bytes of a block, with zeros from one of them on.
fn zeroed(alloc: Global, bytes: Bytes, from: u64) -> Result<Bytes, AllocError>
    requires { from ≤ block_size }
    ensures { IfOk result (λ all. all ≡ zeroed from bytes) }
{
    let mut all = bytes;
    all.truncate(from as usize);
    all.append(&mut zeros(alloc, BLOCK_SIZE - from as usize)?)?;
    Ok(all)
}

// So many zeros.
fn zeros(alloc: Global, count: usize) -> Result<Bytes, AllocError>
    ensures { IfOk result (λ zeros. zeros ≡ replicate count 0) }
{
    Ok(Bytes::from(vec![in alloc; 0; count]?))
}
