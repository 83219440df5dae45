ghost use Rattle.std.specs.Prelude.{◌≡◌, ◌<◌, ◌≤◌, ◌^◌, ◌∷◌, [], true, length, IfOk, OnOk};
ghost use Rattle.key_meaning.specs.Fresh.{at_offset, fresh_keys, main_name};
ghost use Rattle.vol_digest.specs.Digests.{slot_of};
ghost use Rattle.record_codec.specs.Entries.{IsEntry};
ghost use Rattle.sealed_block.specs.Blocks.{IsInRanges, Opens};
ghost use Rattle.journal_ring.specs.EntryBlocks.{AreEntryBlocks};
ghost use Rattle.vol_types.specs.Btrees.{btree_code};
ghost use Rattle.vol_types.specs.KeyMaps.{entries_of, key_of, keys_in};
ghost use Rattle.vol_types.specs.Layouts.{is_layout};
ghost use Rattle.vol_format.specs.Fresh.{AreFreshBlocks, AreRootPlans, IsRootPlan, count_at, entry_head, first_entry, fresh_root, fresh_roots, root_set};

use node_store::{Blocked, plan_set};
use record_codec::{EntryRecord, SetRecord, entry_lengths, put_entry};
use sealed_block::{Head, JOURNAL_ENTRY, seal};
use std::alloc::{AllocError, Global};
use vol_digest::{digest, slot};
use vol_types::{
    BLOCK_SIZE, Btree, Bytes, FileKind, Inode, Key, Keys, Layout, Listing, NodePtr, Place, Places,
    Pos, Roots, Snap, SnapState, Sub, SubList, Updates, Value,
};

/// The blocks that metadata devices of a fresh volume have besides zeros, superblocks and the session: the block of the first
/// entry, and the buckets of the nine roots.
#[derive(Drop)]
pub struct FreshBlocks {
    pub entry: Bytes,
    pub roots: Listing<Blocked>,
}

// The birth of the root of btree 0.
const FIRST_BIRTH: u64 = 4_294_967_296;

// The first snapshot id.
const FIRST_ID: u32 = 4_294_967_295;

// The root of the btree with this number.
fn root_of(alloc: Global, layout: &Layout, number: u8) -> Result<NodePtr, AllocError>
    requires layout { is_layout layout.now ≡ true }
    requires number { number < 9 }
    ensures root { IfOk result (λ root. root ≡ fresh_root layout.now number) }
{
    let block = 16 + layout.journal + 16 * u32::from(number);
    let mut places = Places::new(alloc);
    for dev in 0..layout.metadata_replicas {
        places.push(Place { dev, block })?;
    }
    Ok(NodePtr {
        birth: FIRST_BIRTH + u64::from(number),
        level: 0,
        places,
    })
}

// The roots in the order of the btrees' numbers.
fn roots_of(alloc: Global, layout: &Layout) -> Result<Roots, AllocError>
    requires layout { is_layout layout.now ≡ true }
    ensures roots { IfOk result (λ roots. roots ≡ fresh_roots layout.now) }
{
    let mut roots = Roots::new(alloc);
    for number in 0..9 {
        roots.push(root_of(alloc, layout, number)?)?;
    }
    Ok(roots)
}

// A key at an offset, without inode and id.
fn key_at(offset: u64, value: Value) -> Key
    ensures { result ≡ key_of (at_offset offset value) }
{
    Key {
        pos: Pos {
            inode: 0,
            offset,
            snapshot: 0,
        },
        value: Some(value),
    }
}

// The only key of a list.
fn only(alloc: Global, key: Key) -> Result<Keys, AllocError>
    ensures { IfOk result (λ keys. keys ≡ key ∷ []) }
{
    let mut keys = Keys::new(alloc);
    keys.push(key)?;
    Ok(keys)
}

// The inode of the root directory of `main`.
fn inode_keys(alloc: Global) -> Result<Keys, AllocError>
    ensures { IfOk result (λ keys. keys ≡ keys_in fresh_keys.inodes) }
{
    only(
        alloc,
        Key {
            pos: Pos {
                inode: 0,
                offset: 1,
                snapshot: FIRST_ID,
            },
            value: Some(Value::Inode(Inode {
                kind: FileKind::Directory,
                links: 1,
                size: 0,
            })),
        },
    )
}

// The entry of the subvolume `main`.
fn subvolume_keys(alloc: Global) -> Result<Keys, AllocError>
    ensures { IfOk result (λ keys. keys ≡ keys_in fresh_keys.subvols) }
{
    let mut subs = SubList::new(alloc);
    subs.push(Sub {
        id: FIRST_ID,
        root: 1,
        read_only: false,
        name: Bytes::from_slice(alloc, b"main")?,
    })?;
    only(alloc, key_at(slot(b"main"), Value::Subs(subs)))
}

// The record of the first id, which is a live leaf.
fn snapshot_keys(alloc: Global) -> Result<Keys, AllocError>
    ensures { IfOk result (λ keys. keys ≡ keys_in fresh_keys.snapshots) }
{
    only(
        alloc,
        key_at(
            u64::from(FIRST_ID),
            Value::Snap(Snap {
                parent: 0,
                first_child: 0,
                second_child: 0,
                state: SnapState::LiveLeaf,
            }),
        ),
    )
}

// Where a counter begins: the first client's next number is 2, since 1 is the root of `main`, that of each other client 1, and the
// next snapshot id is the one below the first.
fn first_count(counter: u64) -> u64
    ensures { result ≡ count_at counter }
{
    match counter {
        0 => 2,
        16 => 4_294_967_294,
        _ => 1,
    }
}

// The counters.
fn counter_keys(alloc: Global) -> Result<Keys, AllocError>
    ensures { IfOk result (λ keys. keys ≡ keys_in fresh_keys.counters) }
{
    let mut keys = Keys::new(alloc);
    for counter in 0..17 {
        keys.push(key_at(
            counter,
            Value::Counter {
                next: first_count(counter),
            },
        ))?;
    }
    Ok(keys)
}

// The keys of a btree.
fn keys_of(alloc: Global, btree: Btree) -> Result<Keys, AllocError>
    ensures { IfOk result (λ keys. keys ≡ keys_in (entries_of fresh_keys btree)) }
{
    match btree {
        Btree::Inodes => inode_keys(alloc),
        Btree::Subvols => subvolume_keys(alloc),
        Btree::Snapshots => snapshot_keys(alloc),
        Btree::Counters => counter_keys(alloc),
        _ => Ok(Keys::new(alloc)),
    }
}

// The set of keys of the root of a btree.
fn set_of(alloc: Global, btree: Btree) -> Result<SetRecord, AllocError>
    ensures { IfOk result (λ set. set ≡ root_set (btree_code btree)) }
{
    Ok(SetRecord {
        birth: FIRST_BIRTH + u64::from(btree.code()),
        btree,
        level: 0,
        least: Pos::LEAST,
        greatest: Pos::GREATEST,
        keys: keys_of(alloc, btree)?,
    })
}

// The slot of `main` has the width of an offset.
fn slot_fits()
    ensures { slot_of main_name < 2 ^ 64 }
{
    slot(b"main");
}

// The blocks of the bucket of a root.
fn plan_root(alloc: Global, layout: &Layout, btree: Btree) -> Result<Blocked, AllocError>
    requires layout { is_layout layout.now ≡ true }
    ensures plan { IfOk result (IsRootPlan layout.now (btree_code btree)) }
{
    slot_fits();
    let root = root_of(alloc, layout, btree.code())?;
    let set = set_of(alloc, btree)?;
    plan_set(alloc, layout, &root, 0, 1, &set)
}

// The btree with a number.
fn btree_of(number: u8) -> Btree
    requires { number < 9 }
    ensures { btree_code result ≡ number }
{
    match Btree::from_code(number) {
        Some(btree) => btree,
        None => unreachable!(),
    }
}

// The blocks of the buckets of all roots.
fn plan_roots(alloc: Global, layout: &Layout) -> Result<Listing<Blocked>, AllocError>
    requires layout { is_layout layout.now ≡ true }
    ensures plans { IfOk result (AreRootPlans layout.now) }
{
    let mut roots = Listing::new(alloc);
    for number in 0..9 {
        roots.push(plan_root(alloc, layout, btree_of(number))?)?;
    }
    Ok(roots)
}

// The first entry of the journal.
fn entry_of(alloc: Global, layout: &Layout) -> Result<EntryRecord, AllocError>
    requires layout { is_layout layout.now ≡ true }
    ensures entry { IfOk result (λ entry. entry ≡ first_entry layout.now) }
{
    Ok(EntryRecord {
        sequence: 1,
        oldest: 1,
        session: 1,
        commits: 0,
        roots: roots_of(alloc, layout)?,
        updates: Updates::new(alloc),
    })
}

// The head of the block of the first entry.
fn entry_head(layout: &Layout, payload: &[u8]) -> Head
    requires few { length payload.now ≤ 3968 }
    ensures head { result ≡ entry_head layout.now payload.now }
    ensures ranges { IsInRanges result }
{
    Head {
        kind: JOURNAL_ENTRY,
        version: 1,
        part: 0,
        parts: 1,
        id: layout.id,
        owner: 1,
        number: 0,
        sequence: 1,
        length: payload.len() as u32,
        whole: digest(payload),
    }
}

// The block of the first entry with this payload.
fn seal_entry(layout: &Layout, payload: &[u8]) -> [u8; BLOCK_SIZE]
    requires few { length payload.now ≤ 3968 }
    ensures opens { Opens result (entry_head layout.now payload.now) payload.now }
    ensures size { length result ≡ 4096 }
{
    let mut block = [0; BLOCK_SIZE];
    seal(&entry_head(layout, payload), payload, &mut block);
    block
}

// The block of the first entry.
fn entry_block(alloc: Global, layout: &Layout) -> Result<Bytes, AllocError>
    requires layout { is_layout layout.now ≡ true }
    ensures block { IfOk result (λ block. AreEntryBlocks layout.now.id 0 (first_entry layout.now)
        (block ∷ [])) }
    ensures size { IfOk result (λ block. length block ≡ 4096) }
    ensures entry { OnOk result (IsEntry (first_entry layout.now)) }
{
    entry_lengths();
    let entry = entry_of(alloc, layout)?;
    let payload = put_entry(alloc, &entry)?;
    let block = seal_entry(layout, payload.as_slice());
    let bytes = Bytes::from_slice(alloc, &block)?;
    Ok(bytes)
}

/// The blocks of a fresh volume. It takes memory for ten buckets at most.
pub(crate) fn fresh_blocks(alloc: Global, layout: &Layout) -> Result<FreshBlocks, AllocError>
    requires layout { is_layout layout.now ≡ true }
    ensures blocks { IfOk result (AreFreshBlocks layout.now) }
    ensures entry { OnOk result (IsEntry (first_entry layout.now)) }
{
    Ok(FreshBlocks {
        entry: entry_block(alloc, layout)?,
        roots: plan_roots(alloc, layout)?,
    })
}
