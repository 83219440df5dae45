ghost use Rattle.std.specs.Prelude.{◌≡◌, ◌≤◌, ◌∷◌, [], ℕ, List, OnOk, IfErr, IfOk, IfSome, option_map};
ghost use Rattle.fs_plan.specs.Listing.{with_links};
ghost use Rattle.key_meaning.specs.Checks.{AreNamesJoined, IsLiveLeaf};
ghost use Rattle.key_meaning.specs.Forest.{link_named, links_in, links_of};
ghost use Rattle.key_view.specs.Holds.{IsCause};
ghost use Rattle.key_view.specs.Seen.{GoesOn, IsSeen};
ghost use Rattle.vol_digest.specs.Digests.{slot_of};
ghost use Rattle.vol_types.specs.KeyMaps.{GivesLooks, IsKeyMap, KeyMap};
ghost use Rattle.vol_types.specs.Maps.{value_at};
ghost use Rattle.vol_types.specs.Ranges.{name_cmp};
ghost use Rattle.vol_types.specs.Values.{file_kind_code};
ghost use Rattle.vol_types.specs.declared.values.Link.{Link as ALink};

use dirent_keys::next_slot;
use key_view::{Hold, View, nearest};
use snap_tree::SnapTree;
use std::alloc::{AllocError, Global};
use std::collections::BTreeMap;
use vol_types::{Btree, Bytes, Key, Link, LinkList, Pos, Query, Value};

/// The names that a directory shows in an id, each with the code of its kind. It makes a look for each slot that has a key in any
/// id, beside those of `nearest` there, and one more, and takes memory for the names.
pub(crate) fn flags_in<V: View>(
    alloc: Global,
    view: &mut V,
    tree: &SnapTree,
    id: u32,
    directory: u64,
) -> Result<BTreeMap<Bytes, u8>, Hold>
    ensures flags { IfOk result (λ flags. (keys : KeyMap)
        → IsSeen keys (V.made view.new) tree.now → AreNamesJoined keys → IsLiveLeaf keys id
        → (name : List ℕ) → value_at name_cmp name flags.entries
        ≡ option_map (λ (link : ALink). file_kind_code link.kind)
        (link_named name (links_in keys id directory (slot_of name)))) }
    ensures looks { GoesOn (V.made view.old) (V.made view.new) }
    ensures ids { V.told view.new ≡ V.told view.old }
    ensures cause { IfErr result (IsCause (V.held view.new)) }
{
    let mut flags = BTreeMap::new(alloc);
    let mut from = 0;
    loop {
        let Some(slot) = next_slot(view, directory, from)? else {
            return Ok(flags);
        };
        let value = nearest(view, tree, Btree::Dirents, directory, slot, id)?;
        put_links(&mut flags, links_of(alloc, value))?;
        if slot == u64::MAX {
            return Ok(flags);
        }
        from = slot + 1;
    }
}

// The names that a value holds.
fn links_of(alloc: Global, value: Option<Value>) -> LinkList
    ensures { result ≡ links_of value }
{
    match value {
        Some(Value::Names(links)) => links,
        _ => LinkList::new(alloc),
    }
}

// Puts names among others, each with the code of its kind; of two that are equal the first stays.
fn put_links(flags: &mut BTreeMap<Bytes, u8>, links: LinkList) -> Result<(), AllocError>
    ensures { OnOk result (flags.new.entries ≡ with_links links flags.old.entries) }
{
    let mut left = links;
    while let Some(link) = left.pop() {
        put_link(flags, link)?;
    }
    Ok(())
}

// Puts a name among others, with the code of its kind.
fn put_link(flags: &mut BTreeMap<Bytes, u8>, link: Link) -> Result<(), AllocError>
    ensures { OnOk result (flags.new.entries ≡ with_links (link ∷ []) flags.old.entries) }
{
    let Link {
        number: _,
        kind,
        name,
    } = link;
    flags.insert(name, kind.code())?;
    Ok(())
}
