ghost use Rattle.std.specs.Prelude.{◌≡◌, ◌≤◌, ◌<◌, ◌+◌, ◌^◌, ◌++◌, ◌∷◌, [], All, Contains, IfErr, IfOk, length, map, min, take, drop};
ghost use Rattle.file_plan.specs.BlockIo.{ArePlacesOf, Holds, places_at, places_of};
ghost use Rattle.file_plan.specs.BlockIo.{GoesOn as IoGoesOn};
ghost use Rattle.file_plan.specs.Runs.{GiveBytes, IsWritten, written_at};
ghost use Rattle.key_meaning.specs.Forest.{Read};
ghost use Rattle.key_view.specs.Holds.{IsCause};
ghost use Rattle.vol_digest.specs.Digests.{short_of};
ghost use Rattle.vol_types.specs.Limits.{block_size};

use crate::Contents;
use key_view::Hold;
use std::alloc::{AllocError, Global};
use vol_digest::short;
use vol_types::{Bytes, Digests, Extent, Key, Keys, Place, Pointer, Pointers, Pos, Value};

// How many blocks an extent has at most.
const MOST_BLOCKS: usize = 16;

/// Writes a run of neighbouring blocks of a file, from a first one on, and gives the keys of its extents in an id. The run is cut
/// from its first block into extents of 16 blocks, the last one shorter; each is at places reserved for it. It makes no look.
/// An `Err` may leave places reserved and some of the blocks written.
pub fn write_run<V: Contents>(
    alloc: Global,
    view: &mut V,
    id: u32,
    number: u64,
    first: u64,
    blocks: &[Bytes],
) -> Result<Keys, Hold>
    requires sizes { All (λ bytes. length bytes ≡ block_size) blocks.now }
    requires numbers { first + length blocks.now < 2 ^ 64 }
    ensures written { IfOk result (λ keys. IsWritten number id first blocks.now keys
        (V.io view.old) (V.io view.new)) }
    ensures holds { IfOk result (λ keys. (read : Read) → Holds read (V.io view.new)
        → GiveBytes read keys first blocks.now) }
    ensures looks { V.made view.new ≡ V.made view.old }
    ensures ids { V.told view.new ≡ V.told view.old }
    ensures longest { V.most view.new ≡ V.most view.old }
    ensures io { IoGoesOn (V.io view.old) (V.io view.new) }
    ensures cause { IfErr result (IsCause (V.held view.new)) }
{
    let mut keys = Keys::new(alloc);
    let mut at = first;
    let mut rest = blocks;
    while !rest.is_empty() {
        let (now, later) = rest.split_at(rest.len().min(MOST_BLOCKS));
        let key = write_extent(alloc, view, id, number, at, now)?;
        at = key.pos.offset;
        keys.push(key)?;
        rest = later;
    }
    Ok(keys)
}

// Writes the blocks of one extent, and gives its key.
fn write_extent<V: Contents>(
    alloc: Global,
    view: &mut V,
    id: u32,
    number: u64,
    first: u64,
    blocks: &[Bytes],
) -> Result<Key, Hold>
    requires some { 1 ≤ length blocks.now }
    requires few { length blocks.now ≤ 16 }
    requires sizes { All (λ bytes. length bytes ≡ block_size) blocks.now }
    requires numbers { first + length blocks.now < 2 ^ 64 }
    ensures written { IfOk result (λ key. IsWritten number id first blocks.now (key ∷ [])
        (V.io view.old) (V.io view.new)) }
    ensures end { IfOk result (λ key. key.pos.offset ≡ first + length blocks.now) }
    ensures holds { IfOk result (λ key. (read : Read) → Holds read (V.io view.new)
        → GiveBytes read (key ∷ []) first blocks.now) }
    ensures looks { V.made view.new ≡ V.made view.old }
    ensures ids { V.told view.new ≡ V.told view.old }
    ensures longest { V.most view.new ≡ V.most view.old }
    ensures io { IoGoesOn (V.io view.old) (V.io view.new) }
    ensures cause { IfErr result (IsCause (V.held view.new)) }
{
    let pointers = view.room(blocks.len() as u8)?;
    let digests = write_blocks(alloc, view, &pointers, blocks)?;
    Ok(Key {
        pos: Pos {
            inode: number,
            offset: first + blocks.len() as u64,
            snapshot: id,
        },
        value: Some(Value::Extent(Extent { pointers, digests })),
    })
}

// Writes blocks at the places that were reserved for them, and gives their digests.
fn write_blocks<V: Contents>(
    alloc: Global,
    view: &mut V,
    pointers: &Pointers,
    blocks: &[Bytes],
) -> Result<Digests, Hold>
    requires few { length blocks.now ≤ 16 }
    requires sizes { All (λ bytes. length bytes ≡ block_size) blocks.now }
    requires places { ArePlacesOf (length blocks.now) pointers.now }
    requires reserved { Contains (V.io view.old).reserved (record {
      pointers = pointers.now;
      blocks = length blocks.now;
    }) }
    ensures digests { IfOk result (λ digests. digests ≡ map short_of blocks.now) }
    ensures read { (V.io view.new).read ≡ (V.io view.old).read }
    ensures kept { (V.io view.new).reserved ≡ (V.io view.old).reserved }
    ensures written { IfOk result (λ _. (V.io view.new).written
        ≡ (V.io view.old).written ++ written_at 0 pointers.now blocks.now) }
    ensures looks { V.made view.new ≡ V.made view.old }
    ensures ids { V.told view.new ≡ V.told view.old }
    ensures longest { V.most view.new ≡ V.most view.old }
    ensures io { IoGoesOn (V.io view.old) (V.io view.new) }
    ensures cause { IfErr result (IsCause (V.held view.new)) }
{
    let mut digests = Digests::new(alloc);
    let mut index = 0;
    for block in blocks {
        let places = pointers_behind(alloc, index, pointers.as_slice())?;
        view.put(&places, block)?;
        digests.push(short(block.as_slice()))?;
        index += 1;
    }
    Ok(digests)
}

// The pointers so many blocks further on.
fn pointers_behind(alloc: Global, index: u32, pointers: &[Pointer]) -> Result<Pointers, AllocError>
    requires { All (λ pointer. pointer.place.block + index ≤ 4294967295) pointers.now }
    ensures { IfOk result (λ behind. places_of behind ≡ places_at index pointers.now) }
{
    let mut behind = Pointers::new(alloc);
    for pointer in pointers {
        behind.push(Pointer {
            place: Place {
                dev: pointer.place.dev,
                block: pointer.place.block + index,
            },
            generation: pointer.generation,
        })?;
    }
    Ok(behind)
}
