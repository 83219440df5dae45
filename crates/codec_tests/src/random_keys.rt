//! Random bytes that are read as keys. What is expected comes from a second reader, written in Python by the table of the format.

ghost use Rattle.vol_types.specs.Ranges.{IsKeyValue};

use key_codec::{KeyFault, KeyRead, get_key, put_key};
use std::alloc::{AllocError, Global};
use std::test::Fail;
use vol_types::Bytes;

// What reading many byte strings gave.
#[derive(Clone, Copy, Default, PartialEq, Eq)]
struct Tally {
    keys: u64,
    used: u64,
    short: u64,
    kind: u64,
    // The sum of the numbers of the fields that were out of range.
    range: u64,
    order: u64,
}

impl Tally {
    fn count(&mut self, fault: KeyFault) {
        match fault {
            KeyFault::Short => self.short = self.short.wrapping_add(1),
            KeyFault::Kind(_) => self.kind = self.kind.wrapping_add(1),
            KeyFault::Range(field) => self.range = self.range.wrapping_add(field as u64),
            KeyFault::Order => self.order = self.order.wrapping_add(1),
            KeyFault::NoMemory => {}
        }
    }

    fn count_key(&mut self, used: usize) {
        self.keys = self.keys.wrapping_add(1);
        self.used = self.used.wrapping_add(used as u64);
    }
}

// The next draw of a linear congruential generator: the upper 31 bits of its state.
fn draw(state: &mut u64) -> u64 {
    *state = state
        .wrapping_mul(6_364_136_223_846_793_005)
        .wrapping_add(1_442_695_040_888_963_407);
    *state >> 33
}

// A random byte for a place. In a string of odd number byte 20, the kind, is one of 16.
fn random_byte(state: &mut u64, number: u32, place: u64) -> u8 {
    let most = if place == 20 && number % 2 == 1 {
        16
    } else {
        256
    };
    (draw(state) % 256 % most) as u8
}

// 0 to 400 random bytes.
fn random_bytes(alloc: Global, state: &mut u64, number: u32) -> Result<Vec<u8>, AllocError> {
    let mut bytes = Vec::new(alloc);
    for place in 0..draw(state) % 401 {
        bytes.push(random_byte(state, number, place))?;
    }
    Ok(bytes)
}

// The bytes of a key that was read.
fn written(alloc: Global, read: &KeyRead) -> Result<Bytes, AllocError>
    requires { IsKeyValue read.now.value }
{
    let mut into = Bytes::new(alloc);
    put_key(alloc, &mut into, &read.pos, read.value.as_ref())?;
    Ok(into)
}

// Whether a key that was read off the bytes is written as they are.
fn is_written(alloc: Global, bytes: &[u8], read: &KeyRead) -> Result<bool, AllocError>
    requires { IsKeyValue read.now.value }
{
    let into = written(alloc, read)?;
    let same = into.len() == read.used && bytes.starts_with(into.as_slice());
    drop(into);
    Ok(same)
}

// Counts what reading the bytes gives, and says whether a key that is read is written as they are.
fn is_counted(alloc: Global, bytes: &[u8], tally: &mut Tally) -> Result<bool, AllocError> {
    match get_key(alloc, bytes) {
        Err(fault) => {
            tally.count(fault);
            Ok(true)
        }
        Ok(read) => {
            tally.count_key(read.used);
            let same = is_written(alloc, bytes, &read);
            drop(read);
            same
        }
    }
}

// Counts what the next random bytes give.
fn is_next_counted(
    alloc: Global,
    state: &mut u64,
    number: u32,
    tally: &mut Tally,
) -> Result<bool, AllocError> {
    let bytes = random_bytes(alloc, state, number)?;
    is_counted(alloc, &bytes, tally)
}

// Counts what 20,000 random strings give, and says which is the first whose key isn't written as it was read.
fn first_other(alloc: Global, tally: &mut Tally) -> Result<Option<u32>, AllocError> {
    let mut state = 1;
    for number in 0..20_000 {
        if !is_next_counted(alloc, &mut state, number, tally)? {
            return Ok(Some(number));
        }
    }
    Ok(None)
}

static WANTED: Tally = Tally {
    keys: 3213,
    used: 84_368,
    short: 1159,
    kind: 10_791,
    range: 7866,
    order: 0,
};

#[test]
fn random_bytes_are_read_exactly(rt: HostRuntime) -> Result<(), Fail> {
    let mut tally = Tally::default();
    assert!(rt; first_other(rt.alloc(), &mut tally)? == None);
    assert!(rt; tally == WANTED);
    Ok(())
}
