ghost use Rattle.std.specs.Prelude.{◌≡◌, option_copied};
ghost use Rattle.key_triggers.specs.Changes.{blocks_in, pointers_in};
ghost use Rattle.key_triggers.specs.Positions.{block_pos, bucket_pos};

use vol_types::{Place, Pointer, Pos, Value};

/// The pointers of a value, if it is an extent.
pub fn pointers_in(value: Option<&Value>) -> &[Pointer]
    ensures { result.now ≡ pointers_in (option_copied value.entry) }
{
    match value {
        Some(Value::Extent(extent)) => extent.pointers.as_slice(),
        _ => &[],
    }
}

/// How many blocks a value covers.
pub fn blocks_in(value: Option<&Value>) -> u64
    ensures { result ≡ blocks_in (option_copied value.entry) }
{
    match value {
        Some(Value::Extent(extent)) => extent.digests.len() as u64,
        Some(Value::Hole { blocks }) => u64::from(*blocks),
        _ => 0,
    }
}

/// Where the key of a place's bucket stands.
pub fn bucket_pos(place: Place) -> Pos
    ensures { result ≡ bucket_pos place }
{
    Pos {
        inode: u64::from(place.dev),
        offset: u64::from(place.block / 16),
        snapshot: 0,
    }
}

/// Where the key of a place's block stands.
pub fn block_pos(place: Place) -> Pos
    ensures { result ≡ block_pos place }
{
    Pos {
        inode: u64::from(place.dev),
        offset: u64::from(place.block),
        snapshot: 0,
    }
}
