ghost use Rattle.std.specs.Prelude.{◌≡◌, min};
ghost use Rattle.std.specs.Int.{is_in_range};
ghost use Rattle.std.specs.List.{list_all};
ghost use Rattle.vol_types.specs.Layouts.{is_device_size, is_layout};

use crate::{BUCKET_BLOCKS, Blocks, Duplicate, Places, Reads};
use std::alloc::{AllocError, Global};

/// How a volume lies on its devices.
#[derive(PartialEq, Eq, Drop)]
pub struct Layout {
    pub id: [u8; 16],
    /// For each device its number of blocks.
    pub blocks: Blocks,
    /// How many blocks the journal takes on each metadata device.
    pub journal: u32,
    /// How many devices, the first ones, keep the metadata.
    pub metadata_replicas: u8,
    /// How many copies of each block of a file there are.
    pub data_replicas: u8,
}

impl Layout {
    /// Whether a volume may lie so on its devices. It looks at each device.
    #[tactic(auto, unfolding(crate::specs::Layouts::is_layout))]
    pub fn is_valid(&self) -> bool
        ensures { result ≡ is_layout self.now }
    {
        let devices = self.blocks.len();
        if devices < 1 || devices > 8 {
            return false;
        }
        if self.journal < 256 || self.journal > 4096 || self.journal % BUCKET_BLOCKS != 0 {
            return false;
        }
        if !are_replicas(devices, self.metadata_replicas) {
            return false;
        }
        if !are_replicas(devices, self.data_replicas) {
            return false;
        }
        are_device_sizes(self.journal, self.blocks.as_slice())
    }
}

// Whether a device may have so many blocks beside a journal area of that many.
fn is_device_size(journal: u32, blocks: u32) -> bool
    ensures { result ≡ is_device_size journal blocks }
{
    1024 <= blocks
        && blocks <= 1_048_576
        && blocks % BUCKET_BLOCKS == 0
        && 2 * (u64::from(journal) + u64::from(BUCKET_BLOCKS)) <= u64::from(blocks)
}

fn are_device_sizes(journal: u32, blocks: &[u32]) -> bool
    ensures { result ≡ list_all (is_device_size journal) blocks.now }
{
    blocks.iter().all(|size| is_device_size(journal, *size))
}

// Whether so many devices may hold that many copies.
fn are_replicas(devices: usize, replicas: u8) -> bool
    ensures { result ≡ is_in_range 1 (min 3 devices) replicas }
{
    1 <= replicas && replicas <= 3 && replicas as usize <= devices
}

/// A block of a file of which no copy has the right digest: its number in the file, the digest that is right, and for
/// each place what was read there: the digest of what it gave, or none where reading failed.
#[derive(Debug, PartialEq, Eq, Drop)]
pub struct Lost {
    pub block: u64,
    pub want: u64,
    pub places: Places,
    pub got: Reads,
}

impl Duplicate for Lost {
    fn copy(&self, alloc: Global) -> Result<Self, AllocError> {
        let places = self.places.copy(alloc)?;
        match self.got.copy(alloc) {
            Ok(got) => Ok(Lost {
                block: self.block,
                want: self.want,
                places,
                got,
            }),
            Err(failed) => {
                drop(places);
                Err(failed)
            }
        }
    }
}
