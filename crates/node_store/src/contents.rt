ghost use Rattle.std.specs.Prelude.{◌≡◌, ℕ, All, None, Some, Err, IfOk, []};
ghost use Rattle.std.specs.List.{list_all};
ghost use Rattle.vol_types.specs.Positions.{IsWithin};
ghost use Rattle.vol_types.specs.Ranges.{IsKeyValue};
ghost use Rattle.node_store.specs.Answers.{Gives};
ghost use Rattle.node_store.specs.NodeContents.{content_in, entries_after, has_value, is_same_pos, is_wanted, keys_of, may_hold};

use crate::SetFault;
use crate::opening::Copied;
use crate::sets::{StoredSet, sets_in};
use node_mem::NodeMem;
use record_codec::{RecordFault, SetHead, get_set};
use std::alloc::Global;
use vol_types::{Key, Keys, Pos};

/// A node, and the first block behind its last set.
#[derive(Drop)]
pub(crate) struct Content {
    pub node: NodeMem,
    pub end: u8,
}

fn is_same_pos(one: &Pos, other: &Pos) -> bool
    ensures { result ≡ is_same_pos one.now other.now }
{
    one.inode == other.inode && one.offset == other.offset && one.snapshot == other.snapshot
}

// Whether a set says of its node what is wanted.
fn is_wanted(wanted: &SetHead, head: &SetHead) -> bool
    ensures { result ≡ is_wanted wanted.now head.now }
{
    head.birth == wanted.birth
        && head.btree.code() == wanted.btree.code()
        && head.level == wanted.level
        && is_same_pos(&head.least, &wanted.least)
        && is_same_pos(&head.greatest, &wanted.greatest)
}

// Whether each key has a value.
fn have_values(keys: &[Key]) -> bool
    ensures { result ≡ list_all has_value keys.now }
{
    keys.iter().all(|key| key.value.is_some())
}

// Whether a set that begins at this block may hold the keys: a node's first set removes none.
fn may_hold(block: u8, keys: &[Key]) -> bool
    ensures { result ≡ may_hold block keys.now }
{
    if block > 0 {
        return true;
    }
    have_values(keys)
}

// The keys of a set, if it is one of the node.
fn keys_of(alloc: Global, wanted: &SetHead, set: &StoredSet) -> Result<Keys, SetFault>
    ensures found { IfOk result (λ keys. keys_of wanted.now set.now ≡ Some keys) }
    ensures bad { (n : ℕ) → result ≡ Err (SetFault.BadBlock n) → (n ≡ set.now.block) ×
        (keys_of wanted.now set.now ≡ None) }
    ensures covered { IfOk result
        (All (λ key. IsWithin wanted.now.least wanted.now.greatest key.pos)) }
    ensures in_range { IfOk result (All (λ key. IsKeyValue key.value)) }
{
    match get_set(alloc, set.payload.as_slice()) {
        Ok(record) => {
            if !is_wanted(wanted, &record.head()) {
                return Err(SetFault::BadBlock(set.block));
            }
            if !may_hold(set.block, record.keys.as_slice()) {
                return Err(SetFault::BadBlock(set.block));
            }
            Ok(record.keys)
        }
        Err(RecordFault::NoMemory) => Err(SetFault::NoMemory),
        Err(_) => Err(SetFault::BadBlock(set.block)),
    }
}

// The node that the sets make, one after the other.
#[tactic(auto, using(crate::proofs::Joined::merge_more, crate::proofs::Joined::merge_fault))]
fn merged(alloc: Global, wanted: &SetHead, sets: &[StoredSet]) -> Result<NodeMem, SetFault>
    ensures entries { Gives (λ node. node.entries) result (entries_after wanted.now sets.now []) }
    ensures least { IfOk result (λ node. node.least ≡ wanted.now.least) }
    ensures greatest { IfOk result (λ node. node.greatest ≡ wanted.now.greatest) }
{
    let mut node = NodeMem::new(alloc, &wanted.least, &wanted.greatest)?;
    for set in sets {
        let keys = keys_of(alloc, wanted, set)?;
        node = node.merged(keys)?;
    }
    Ok(node)
}

/// What the copies of a node's bucket hold, or the block at fault.
pub(crate) fn content_in(
    alloc: Global,
    copies: &[Copied],
    id: &[u8; 16],
    wanted: &SetHead,
) -> Result<Content, SetFault>
    ensures content { Gives
        (λ content. record { entries = content.node.entries; end = content.end }) result
        (content_in copies.now id.now wanted.now) }
    ensures least { IfOk result (λ content. content.node.least ≡ wanted.now.least) }
    ensures greatest { IfOk result (λ content. content.node.greatest ≡ wanted.now.greatest) }
{
    let found = sets_in(alloc, copies, id, wanted.birth)?;
    let node = merged(alloc, wanted, found.sets.as_slice())?;
    Ok(Content {
        node,
        end: found.end,
    })
}
