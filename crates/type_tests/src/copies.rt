//! That lists and values are copied where memory is ample. What a copy holds its contract says.

use std::alloc::{AllocError, Global};
use std::test::Fail;
use vol_types::{
    Bytes, Duplicate, Extent, FileKind, Key, Keys, Link, Listing, Lost, NodePtr, Place, Pointer,
    Pos, SpareList, Sub, Value,
};

const PLACE: Place = Place { dev: 1, block: 416 };

const POINTER: Pointer = Pointer {
    place: PLACE,
    generation: 7,
};

fn extent(alloc: Global) -> Result<Value, AllocError> {
    let pointers = Listing::from_slice(alloc, &[POINTER])?;
    match Listing::from_slice(alloc, &[5, 6]) {
        Ok(digests) => Ok(Value::Extent(Extent { pointers, digests })),
        Err(failed) => {
            drop(pointers);
            Err(failed)
        }
    }
}

// A list of one member.
fn one<T: Drop>(alloc: Global, member: T) -> Result<Listing<T>, AllocError> {
    let mut list = Listing::new(alloc);
    if list.push(member).is_err() {
        drop(list);
        return Err(AllocError);
    }
    Ok(list)
}

fn names(alloc: Global) -> Result<Value, AllocError> {
    let link = Link {
        number: 2,
        kind: FileKind::File,
        name: Bytes::from_slice(alloc, b"a")?,
    };
    Ok(Value::Names(one(alloc, link)?))
}

fn subs(alloc: Global) -> Result<Value, AllocError> {
    let sub = Sub {
        id: 9,
        root: 1,
        read_only: true,
        name: Bytes::from_slice(alloc, b"main")?,
    };
    Ok(Value::Subs(one(alloc, sub)?))
}

fn node(alloc: Global) -> Result<Value, AllocError> {
    Ok(Value::Node(NodePtr {
        birth: 1,
        level: 2,
        places: Listing::from_slice(alloc, &[PLACE])?,
    }))
}

// Whether the key with this value is copied to an equal one.
fn is_copied(alloc: Global, value: Result<Value, AllocError>) -> bool {
    let Ok(value) = value else {
        return false;
    };
    let key = Key {
        pos: Pos::LEAST,
        value: Some(value),
    };
    let copied = is_copied_key(alloc, &key);
    drop(key);
    copied
}

fn is_copied_key(alloc: Global, key: &Key) -> bool {
    match key.copy(alloc) {
        Ok(copy) => {
            let same = copy == *key;
            drop(copy);
            same
        }
        Err(_) => false,
    }
}

#[test]
fn copies(rt: HostRuntime) {
    let alloc = rt.alloc();
    assert!(rt; is_copied(alloc, extent(alloc)));
    assert!(rt; is_copied(alloc, names(alloc)));
    assert!(rt; is_copied(alloc, subs(alloc)));
    assert!(rt; is_copied(alloc, node(alloc)));
    assert!(rt; Keys::new(alloc).copy(alloc).is_ok());
}

fn lost(alloc: Global) -> Result<Lost, AllocError> {
    Ok(Lost {
        block: 1,
        want: 2,
        places: Listing::new(alloc),
        got: Listing::from_slice(alloc, &[None, Some(3)])?,
    })
}

fn is_lost_copied(alloc: Global, lost: &Lost) -> bool {
    match lost.copy(alloc) {
        Ok(copy) => {
            let same = copy == *lost;
            drop(copy);
            same
        }
        Err(_) => false,
    }
}

#[test]
fn what_is_lost_is_copied(rt: HostRuntime) -> Result<(), Fail> {
    let alloc = rt.alloc();
    let lost = lost(alloc)?;
    let copied = is_lost_copied(alloc, &lost);
    drop(lost);
    assert!(rt; copied);
    Ok(())
}

// Cuts the bytes to a size, and says whether these are left.
fn is_cut(bytes: &mut Bytes, size: usize, left: &[u8]) -> bool {
    bytes.truncate(size);
    bytes.as_slice() == left
}

#[test]
fn cuts(rt: HostRuntime) -> Result<(), Fail> {
    let mut bytes = Bytes::from_slice(rt.alloc(), b"abc")?;
    let cut = is_cut(&mut bytes, 4, b"abc") && is_cut(&mut bytes, 1, b"a");
    let emptied = is_cut(&mut bytes, 0, b"") && bytes.is_empty();
    drop(bytes);
    assert!(rt; cut && emptied);
    Ok(())
}

// Adds two bytes, for each of which room is reserved.
fn two_reserved(alloc: Global) -> Result<SpareList<u8>, AllocError> {
    let mut room = SpareList::new(alloc);
    if let Err(failed) = room.reserve(1) {
        drop(room);
        return Err(failed);
    }
    room.push(b'a');
    let mut room = Bytes::from(room).reserve(1)?;
    room.push(b'b');
    Ok(room)
}

#[test]
fn reserves(rt: HostRuntime) -> Result<(), Fail> {
    let room = two_reserved(rt.alloc())?;
    let whole = room.as_slice() == b"ab".as_slice();
    drop(room);
    assert!(rt; whole);
    Ok(())
}

// Whether the other bytes are moved to the end.
fn is_joined(bytes: &mut Bytes, others: &mut Bytes) -> bool {
    bytes.append(others).is_ok() && bytes.as_slice() == b"abc".as_slice() && others.is_empty()
}

#[test]
fn joins(rt: HostRuntime) -> Result<(), Fail> {
    let alloc = rt.alloc();
    let mut bytes = Bytes::from_slice(alloc, b"ab")?;
    let mut others = Bytes::from_slice(alloc, b"c")?;
    let joined = is_joined(&mut bytes, &mut others);
    drop(others);
    drop(bytes);
    assert!(rt; joined);
    Ok(())
}
