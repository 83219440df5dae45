ghost use Rattle.std.specs.Prelude.{◌≡◌, ◌<◌, ◌^◌, ◌++◌, [], ◌∷◌, length, All, Option, None, Ok, OnOk, IfOk, option_copied};
ghost use Rattle.std.specs.List.{flat_map};
ghost use Rattle.key_codec.specs.Formats.{u8_byte, u64_le};
ghost use Rattle.key_codec.specs.Keys.{encoding};
ghost use Rattle.key_codec.specs.Kinds.{node_fields};
ghost use Rattle.vol_types.specs.Btrees.{btree_code};
ghost use Rattle.vol_types.specs.Ranges.{IsNode};
ghost use Rattle.vol_types.specs.Standing.{IsUpdate};
ghost use Rattle.vol_types.specs.Widths.{NodeFits};
ghost use Rattle.record_codec.specs.Entries.{IsEntry, IsEntryInRange, UpdateFits, roots, root_item, update_item, entry_format, entry_in};
ghost use Rattle.record_codec.specs.Reading.{Gives};
ghost use Rattle.record_codec.specs.declared.entries.EntryRecord.{EntryRecord as AnEntry};

use crate::RecordFault;
use crate::fields::{btree_at, byte_at, long_number_at, pos_at, root_at, value_at};
use crate::members::{Member, Written, listing_at, members_at, put_members};
use key_codec::{put_key, put_node, put_u8, put_u32, put_u64};
use std::alloc::{AllocError, Global};
use vol_types::{Bytes, NodePtr, Roots, Update, Updates};

/// An entry of the journal.
#[derive(PartialEq, Eq, Drop)]
pub struct EntryRecord {
    pub sequence: u64,
    /// The oldest entry that is needed besides this one, by its sequence.
    pub oldest: u64,
    pub session: u64,
    /// How many commits there were since format, those of this entry included.
    pub commits: u64,
    /// The root of each btree.
    pub roots: Roots,
    /// What the commits did, in their order.
    pub updates: Updates,
}

/// The one encoding of the entry, in one pass over its roots and updates.
pub fn put_entry(alloc: Global, entry: &EntryRecord) -> Result<Bytes, AllocError>
    requires { IsEntryInRange entry.now }
    ensures ok { IfOk result (λ payload. payload ≡ entry_format.encode entry.now) }
    // What is written is read again, since it is an entry.
    ensures entry { OnOk result (IsEntry entry.now) }
{
    let mut into = Bytes::new(alloc);
    put_numbers(&mut into, entry)?;
    put_members::<NodePtr>(alloc, &mut into, entry.roots.as_slice())?;
    put_u32(&mut into, entry.updates.len() as u32)?;
    put_members::<Update>(alloc, &mut into, entry.updates.as_slice())?;
    Ok(into)
}

/// The entry that the payload is, or the first fault from the left. It takes memory for the roots and the updates, and
/// one pass over the bytes.
pub fn get_entry(alloc: Global, payload: &[u8]) -> Result<EntryRecord, RecordFault>
    // What is read is an entry, and the payload is its encoding.
    ensures found { IfOk result (λ entry. IsEntry entry × (payload.now ≡ entry_format.encode entry)) }
    // What is encoded so is read, unless out of memory.
    ensures only { (entry : AnEntry) → IsEntry entry → payload.now ≡ entry_format.encode entry
        → Gives (λ read. read) result (Ok entry) }
    // Which fault it is, unless out of memory.
    ensures exact { Gives (λ read. read) result (entry_in payload.now) }
{
    read_entry(alloc, payload)
}

#[tactic(auto, unfolding(crate::specs::Entries::entry_in))]
fn read_entry(alloc: Global, payload: &[u8]) -> Result<EntryRecord, RecordFault>
    ensures { Gives (λ read. read) result (entry_in payload.now) }
{
    let (entry, rest) = entry_at(alloc, payload)?;
    match rest {
        [] => Ok(entry),
        _ => Err(RecordFault::Long),
    }
}

// The entry at the start, and the rest.
#[tactic(auto, unfolding(crate::specs::Entries::entry_format))]
fn entry_at(alloc: Global, bytes: &[u8]) -> Result<(EntryRecord, &[u8]), RecordFault>
    ensures { Gives (λ x. (x.0, x.1.now)) result (entry_format.read bytes.now) }
{
    let (sequence, rest) = long_number_at(bytes)?;
    let (oldest, rest) = long_number_at(rest)?;
    if oldest > sequence {
        return Err(RecordFault::Field);
    }
    let (session, rest) = long_number_at(rest)?;
    let (commits, rest) = long_number_at(rest)?;
    let (roots, rest) = roots_at(alloc, rest)?;
    let (updates, rest) = listing_at(alloc, &(), rest)?;
    Ok((
        EntryRecord {
            sequence,
            oldest,
            session,
            commits,
            roots,
            updates,
        },
        rest,
    ))
}

// The root of each btree, and the rest.
#[tactic(auto, unfolding(crate::specs::Entries::roots))]
fn roots_at(alloc: Global, bytes: &[u8]) -> Result<(Roots, &[u8]), RecordFault>
    ensures { Gives (λ x. (x.0, x.1.now)) result (roots.read bytes.now) }
{
    members_at(alloc, &(), 9, bytes)
}

// Appends the four numbers of the entry.
#[tactic(auto, using(key_codec::specs::Appending::appending))]
fn put_numbers(into: &mut Bytes, entry: &EntryRecord) -> Result<(), AllocError>
    ensures ok { OnOk result (into.new ≡ into.old ++ u64_le.encode
        entry.now.sequence ++ u64_le.encode entry.now.oldest ++ u64_le.encode
        entry.now.session ++ u64_le.encode entry.now.commits) }
    ensures sequence { OnOk result (entry.now.sequence < 2 ^ 64) }
    ensures session { OnOk result (entry.now.session < 2 ^ 64) }
    ensures commits { OnOk result (entry.now.commits < 2 ^ 64) }
{
    put_u64(into, entry.sequence)?;
    put_u64(into, entry.oldest)?;
    put_u64(into, entry.session)?;
    put_u64(into, entry.commits)
}

impl Written for NodePtr {
    ghost encode = { node_fields.encode };

    ghost Writable = { IsNode };

    ghost Fits = { NodeFits };

    fn put(&self, _alloc: Global, into: &mut Bytes) -> Result<(), AllocError> {
        put_node(into, self)
    }
}

impl Member<()> for NodePtr {
    ghost format = { λ _. root_item };

    fn read<'a>(
        alloc: Global,
        _head: &(),
        _before: Option<&Self>,
        bytes: &'a [u8],
    ) -> Result<(Self, &'a [u8]), RecordFault> {
        root_at(alloc, bytes)
    }
}

impl Written for Update {
    ghost encode = { λ update. (btree_code update.btree ∷ update.level ∷ []) ++ encoding update.pos update.value };

    ghost Writable = { IsUpdate };

    ghost Fits = { UpdateFits };

    #[tactic(auto, using(key_codec::specs::Appending::appending), unfolding(key_codec::specs::Formats::u8_byte))]
    fn put(&self, alloc: Global, into: &mut Bytes) -> Result<(), AllocError> {
        put_u8(into, self.btree.code())?;
        put_u8(into, self.level)?;
        put_key(alloc, into, &self.pos, self.value.as_ref())
    }
}

impl Member<()> for Update {
    ghost format = { λ _. update_item };

    #[tactic(auto, unfolding(crate::specs::Entries::update_item))]
    fn read<'a>(
        alloc: Global,
        _head: &(),
        _before: Option<&Self>,
        bytes: &'a [u8],
    ) -> Result<(Self, &'a [u8]), RecordFault> {
        let (btree, rest) = btree_at(bytes)?;
        let (level, rest) = byte_at(rest)?;
        let (pos, rest) = pos_at(rest)?;
        let (value, rest) = value_at(alloc, btree, level, rest)?;
        Ok((
            Update {
                btree,
                level,
                pos,
                value,
            },
            rest,
        ))
    }
}
