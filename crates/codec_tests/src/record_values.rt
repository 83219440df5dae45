//! What the payloads of sets and entries are read as, and an entry of many commits.

use crate::digits::{bytes_of, put_hex};
use crate::records::{ENTRY, GREATEST, INNER, LEAF, entry_letter};
use record_codec::{
    EntryRecord, KeyRef, SetHead, SetRecord, entry_length, get_entry, get_set, put_lent_set,
    put_set,
};
use std::alloc::{AllocError, Global};
use std::test::Fail;
use vol_types::{
    Btree, Bytes, FileKind, Inode, Key, Keys, Link, LinkList, NodePtr, Place, Places, Pos, Roots,
    Update, Updates, Value,
};

fn pos_of(inode: u64, offset: u64, snapshot: u32) -> Pos {
    Pos {
        inode,
        offset,
        snapshot,
    }
}

fn place_of(dev: u8, block: u32) -> Place {
    Place { dev, block }
}

fn node_of(alloc: Global, birth: u64, level: u8, places: &[Place]) -> Result<NodePtr, AllocError> {
    Ok(NodePtr {
        birth,
        level,
        places: Places::from_slice(alloc, places)?,
    })
}

fn put_link(
    alloc: Global,
    links: &mut LinkList,
    number: u64,
    kind: FileKind,
    name: &[u8],
) -> Result<(), AllocError> {
    let name = Bytes::from_slice(alloc, name)?;
    links.push(Link { number, kind, name })?;
    Ok(())
}

// Whether the payload is read as this set. That it is written so is seen above.
fn gives_set(alloc: Global, payload: &[u8], set: &SetRecord) -> bool {
    match get_set(alloc, payload) {
        Ok(read) => {
            let same = read == *set;
            drop(read);
            same
        }
        Err(_) => false,
    }
}

// Whether the digits are read as this set.
fn is_set(alloc: Global, digits: &str, set: SetRecord) -> Result<bool, AllocError> {
    let same = match bytes_of(alloc, digits) {
        Ok(payload) => Ok(gives_set(alloc, &payload, &set)),
        Err(error) => Err(error),
    };
    drop(set);
    same
}

fn put_key(keys: &mut Keys, pos: Pos, value: Option<Value>) -> Result<(), AllocError> {
    keys.push(Key { pos, value })?;
    Ok(())
}

fn leaf_links(alloc: Global) -> Result<LinkList, AllocError> {
    let mut links = LinkList::new(alloc);
    put_link(alloc, &mut links, 2, FileKind::File, b"a")?;
    put_link(alloc, &mut links, 3, FileKind::Directory, b"b")?;
    Ok(links)
}

fn put_leaf_keys(alloc: Global, keys: &mut Keys) -> Result<(), AllocError> {
    let names = leaf_links(alloc)?;
    put_key(keys, pos_of(1, 5, 7), Some(Value::Names(names)))?;
    put_key(keys, pos_of(1, 5, 9), Some(Value::White))?;
    put_key(keys, pos_of(2, 0, 1), None)
}

fn leaf_keys(alloc: Global) -> Result<Keys, AllocError> {
    let mut keys = Keys::new(alloc);
    put_leaf_keys(alloc, &mut keys)?;
    Ok(keys)
}

#[test]
fn the_leaf(rt: HostRuntime) -> Result<(), Fail> {
    let alloc = rt.alloc();
    let set = SetRecord {
        birth: 0x1_0000_0002,
        btree: Btree::Dirents,
        level: 0,
        least: pos_of(1, 0, 0),
        greatest: pos_of(9, u64::MAX, u32::MAX),
        keys: leaf_keys(alloc)?,
    };
    assert!(rt; is_set(alloc, LEAF, set)?);
    Ok(())
}

fn put_node_keys(alloc: Global, keys: &mut Keys) -> Result<(), AllocError> {
    let node = node_of(alloc, 5, 0, &[place_of(0, 32), place_of(7, 48)])?;
    put_key(keys, pos_of(3, 4, u32::MAX), Some(Value::Node(node)))?;
    put_key(keys, pos_of(5, 16, 9), None)
}

fn node_keys(alloc: Global) -> Result<Keys, AllocError> {
    let mut keys = Keys::new(alloc);
    put_node_keys(alloc, &mut keys)?;
    Ok(keys)
}

#[test]
fn the_node(rt: HostRuntime) -> Result<(), Fail> {
    let alloc = rt.alloc();
    let set = SetRecord {
        birth: 7,
        btree: Btree::Extents,
        level: 1,
        least: pos_of(0, 0, 0),
        greatest: pos_of(5, 16, 9),
        keys: node_keys(alloc)?,
    };
    assert!(rt; is_set(alloc, INNER, set)?);
    Ok(())
}

fn greatest_keys(alloc: Global) -> Result<Keys, AllocError> {
    let last = pos_of(u64::MAX, u64::MAX, u32::MAX);
    let mut keys = Keys::new(alloc);
    put_key(&mut keys, pos_of(0, 0, 0), Some(Value::Counter { next: 0 }))?;
    put_key(&mut keys, last, Some(Value::Counter { next: u64::MAX }))?;
    Ok(keys)
}

#[test]
fn the_greatest_set(rt: HostRuntime) -> Result<(), Fail> {
    let alloc = rt.alloc();
    let greatest = SetRecord {
        birth: u64::MAX,
        btree: Btree::Counters,
        level: 0,
        least: pos_of(0, 0, 0),
        greatest: pos_of(u64::MAX, u64::MAX, u32::MAX),
        keys: greatest_keys(alloc)?,
    };
    assert!(rt; is_set(alloc, GREATEST, greatest)?);
    Ok(())
}

#[test]
fn the_least_set(rt: HostRuntime) -> Result<(), Fail> {
    let alloc = rt.alloc();
    let least = SetRecord {
        birth: 0,
        btree: Btree::Extents,
        level: 255,
        least: pos_of(0, 0, 0),
        greatest: pos_of(0, 0, 0),
        keys: Keys::new(alloc),
    };
    let written = put_set(alloc, &least)?;
    let mut wanted = [0; 56];
    wanted[9] = 255;
    assert!(rt; written.as_slice() == wanted.as_slice());
    Ok(())
}

fn put_node(
    alloc: Global,
    roots: &mut Roots,
    birth: u64,
    level: u8,
    places: &[Place],
) -> Result<(), AllocError> {
    let node = node_of(alloc, birth, level, places)?;
    roots.push(node)?;
    Ok(())
}

fn put_roots_of_entry(alloc: Global, roots: &mut Roots) -> Result<(), AllocError> {
    for btree in 0..8 {
        let birth = 0x1_0000_0000 + btree as u64;
        let place = place_of(0, 272 + 16 * btree);
        put_node(alloc, roots, birth, btree as u8, &[place])?;
    }
    let places = [place_of(0, 400), place_of(1, 16)];
    put_node(alloc, roots, 0x1_0000_0008, 0, &places)
}

fn roots_of_entry(alloc: Global) -> Result<Roots, AllocError> {
    let mut roots = Roots::new(alloc);
    put_roots_of_entry(alloc, &mut roots)?;
    Ok(roots)
}

fn put_update(
    updates: &mut Updates,
    btree: Btree,
    level: u8,
    pos: Pos,
    value: Option<Value>,
) -> Result<(), AllocError> {
    updates.push(Update {
        btree,
        level,
        pos,
        value,
    })?;
    Ok(())
}

fn put_updates_of_entry(alloc: Global, updates: &mut Updates) -> Result<(), AllocError> {
    let inode = Value::Inode(Inode {
        kind: FileKind::File,
        links: 1,
        size: 4096,
    });
    let hole = Value::Hole { blocks: 8 };
    put_update(
        updates,
        Btree::Inodes,
        0,
        pos_of(0, 2, u32::MAX),
        Some(inode),
    )?;
    put_update(
        updates,
        Btree::Extents,
        0,
        pos_of(2, 8, u32::MAX),
        Some(hole),
    )?;
    let node = node_of(alloc, 6, 0, &[place_of(0, 64)])?;
    put_update(
        updates,
        Btree::Dirents,
        1,
        pos_of(1, 2, 3),
        Some(Value::Node(node)),
    )?;
    put_update(updates, Btree::Subvols, 0, pos_of(0, 1, 0), None)
}

fn updates_of_entry(alloc: Global) -> Result<Updates, AllocError> {
    let mut updates = Updates::new(alloc);
    put_updates_of_entry(alloc, &mut updates)?;
    Ok(updates)
}

// Whether the payload is read as this entry.
fn gives_entry(alloc: Global, payload: &[u8], entry: &EntryRecord) -> bool {
    match get_entry(alloc, payload) {
        Ok(read) => {
            let same = read == *entry;
            drop(read);
            same
        }
        Err(_) => false,
    }
}

// Whether the digits are read as this entry.
fn is_entry(alloc: Global, digits: &str, entry: &EntryRecord) -> Result<bool, AllocError> {
    let payload = bytes_of(alloc, digits)?;
    Ok(gives_entry(alloc, &payload, entry))
}

// Whether the digits are read as the entry of these roots and updates.
fn is_entry_of(
    alloc: Global,
    digits: &str,
    roots: Roots,
    updates: Updates,
) -> Result<bool, AllocError> {
    let entry = EntryRecord {
        sequence: 9,
        oldest: 3,
        session: 4,
        commits: 100,
        roots,
        updates,
    };
    let same = is_entry(alloc, digits, &entry);
    drop(entry);
    same
}

#[test]
fn the_entry(rt: HostRuntime) -> Result<(), Fail> {
    let alloc = rt.alloc();
    let roots = roots_of_entry(alloc)?;
    let same = match updates_of_entry(alloc) {
        Ok(updates) => is_entry_of(alloc, ENTRY, roots, updates),
        Err(error) => {
            drop(roots);
            Err(error)
        }
    };
    assert!(rt; same == Ok(true));
    Ok(())
}

// Appends the three updates of a commit that makes a file in the root: its inode, its name of three bytes, and the number that
// comes next.
fn put_commit(payload: &mut Vec<u8>, number: u8) -> Result<(), AllocError> {
    let updates = [
        1, 0, 0, 0, 0, 0, 0, 0, 0, 0, number, 0, 0, 0, 0, 0, 0, 0, 255, 255, 255, 255, 1, 1, 1, 0,
        0, 0, 0, 0, 0, 0, 0, 0, 0, 0, 2, 0, 1, 0, 0, 0, 0, 0, 0, 0, number, 0, 0, 0, 0, 0, 0, 0,
        255, 255, 255, 255, 2, 1, number, 0, 0, 0, 0, 0, 0, 0, 1, 3, b'n', b'0', number, 8, 0, 0,
        0, 0, 0, 0, 0, 0, 0, 0, 0, 0, 0, 0, 0, 0, 0, 0, 0, 0, 0, 11, number, 0, 0, 0, 0, 0, 0, 0,
    ];
    payload.extend_from_slice(&updates)
}

// Appends a root on two devices.
fn put_root(payload: &mut Vec<u8>, btree: u8) -> Result<(), AllocError> {
    let root = [
        btree, 0, 0, 0, 1, 0, 0, 0, 0, 2, 0, 16, 1, 0, 0, 1, 16, 1, 0, 0,
    ];
    payload.extend_from_slice(&root)
}

// Appends the four numbers of an entry of 60 commits, its roots, and its 180 updates.
fn put_sixty_commits(payload: &mut Vec<u8>) -> Result<(), AllocError> {
    let numbers = "0200000000000000 0100000000000000 0200000000000000 3c00000000000000";
    put_hex(payload, numbers)?;
    for btree in 0..9 {
        put_root(payload, btree)?;
    }
    put_hex(payload, "b4000000")?;
    for number in 2..62 {
        put_commit(payload, number)?;
    }
    Ok(())
}

// How many commits and updates the payload has, if it is an entry.
fn counts_of(alloc: Global, payload: &[u8]) -> Option<(u64, usize)> {
    match get_entry(alloc, payload) {
        Ok(entry) => {
            let counts = (entry.commits, entry.updates.len());
            drop(entry);
            Some(counts)
        }
        Err(_) => None,
    }
}

// Whether the payload is an entry of 60 commits, and roots on two devices each: 216 bytes and 104 for each commit.
fn is_of_sixty_commits(alloc: Global, payload: &[u8]) -> bool {
    payload.len() == 6456
        && counts_of(alloc, payload) == Some((60, 180))
        && entry_letter(alloc, payload) == Ok(b'.')
}

#[test]
fn an_entry_of_sixty_commits(rt: HostRuntime) -> Result<(), Fail> {
    let alloc = rt.alloc();
    let mut payload = Vec::new(alloc);
    put_sixty_commits(&mut payload)?;
    assert!(rt; is_of_sixty_commits(alloc, &payload));
    Ok(())
}

static LENT_HEAD: SetHead = SetHead {
    birth: 7,
    btree: Btree::Extents,
    level: 1,
    least: Pos::LEAST,
    greatest: Pos::GREATEST,
};

// A set with that head and one key, which is removed. The bytes are written down by the table of the format.
static LENT: &str = "\
    0700000000000000000100000000000000000000000000000000000000000000ffffffffffffffffffffffffffffffffffff\
    ffff01000000050000000000000010000000000000000900000000";

// Whether that set is written so.
fn is_lent_so(alloc: Global, wanted: &[u8]) -> bool {
    let pos = pos_of(5, 16, 9);
    let key = KeyRef {
        pos: &pos,
        value: None,
    };
    match put_lent_set(alloc, &LENT_HEAD, &[key]) {
        Ok(written) => {
            let same = written.as_slice() == wanted;
            drop(written);
            same
        }
        Err(_) => false,
    }
}

#[test]
fn lent_keys_are_written(rt: HostRuntime) -> Result<(), Fail> {
    let wanted = bytes_of(rt.alloc(), LENT)?;
    assert!(rt; is_lent_so(rt.alloc(), &wanted));
    Ok(())
}

fn length_of(alloc: Global, payload: &[u8]) -> Option<u64> {
    match get_entry(alloc, payload) {
        Ok(entry) => {
            let length = entry_length(entry.roots.as_slice(), entry.updates.as_slice());
            drop(entry);
            Some(length)
        }
        Err(_) => None,
    }
}

fn has_its_length(alloc: Global, payload: &[u8]) -> bool {
    length_of(alloc, payload) == Some(payload.len() as u64)
}

#[test]
fn lengths_of_the_entry(rt: HostRuntime) -> Result<(), Fail> {
    let payload = bytes_of(rt.alloc(), ENTRY)?;
    assert!(rt; has_its_length(rt.alloc(), &payload));
    Ok(())
}
