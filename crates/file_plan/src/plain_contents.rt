ghost use Rattle.std.specs.Prelude.{◌≡◌, ◌≤◌, ◌∷◌, [], ⊤, All, length, IfOk, IfSome};
ghost use Rattle.extent_ops.specs.Looking.{AreExtentsUpTo};
ghost use Rattle.file_plan.specs.BlockIo.{places_of};
ghost use Rattle.key_meaning.specs.Blocks.{blocks_of};
ghost use Rattle.key_view.specs.Plain.{key_map_of};
ghost use Rattle.vol_digest.specs.Digests.{short_of};
ghost use Rattle.vol_types.specs.Limits.{block_size};

use crate::{BlockIo, Contents, KnownBlock, Reservation};
use extent_ops::longest_with;
use key_view::{Hold, PlainKeys, PlainView, View};
use snap_tree::SnapTree;
use std::alloc::{AllocError, Global};
use std::collections::BTreeMap;
use std::sync::Arc;
use vol_digest::short;
use vol_types::{
    BLOCK_SIZE, Bytes, Duplicate, Keys, Listing, Looks, Lost, Place, Places, Pointer, Pointers,
    Pos, Query, Reads, Short, Value,
};

/// A view of a key map and of blocks in memory, on one device. It waits for nothing, and fails where it is out of memory, where
/// no block with the right digest stands at a place, or where its device is full.
#[derive(Drop)]
pub struct PlainContents {
    alloc: Global,
    view: PlainView,
    blocks: BTreeMap<u32, Bytes>,
    next: u32,
    longest: u64,
    io: BlockIo,
}

impl PlainContents {
    /// A view of these keys, with a tree of ids, and of blocks by their numbers. Places are reserved from a block on. It costs a step
    /// for each extent and hole.
    pub fn new(
        alloc: Global,
        keys: PlainKeys,
        tree: Arc<SnapTree>,
        blocks: BTreeMap<u32, Bytes>,
        next: u32,
    ) -> PlainContents
        ensures { AreExtentsUpTo result.longest (key_map_of keys) }
    {
        let longest = longest_of(&keys.extents);
        PlainContents {
            alloc,
            view: PlainView::new(alloc, keys, tree),
            blocks,
            next,
            longest,
            io: BlockIo {
                read: Listing::new(alloc),
                reserved: Listing::new(alloc),
                written: Listing::new(alloc),
            },
        }
    }

    /// The blocks as they are now, and the first one that isn't reserved.
    pub fn into_blocks(self) -> (BTreeMap<u32, Bytes>, u32) {
        (self.blocks, self.next)
    }
}

impl View for PlainContents {
    ghost made = { λ contents. ⟦<PlainView as View>⟧.made contents.view };

    ghost told = { λ contents. ⟦<PlainView as View>⟧.told contents.view };

    ghost held = { λ _ _. ⊤ };

    fn look(&mut self, query: &Query) -> Result<Keys, Hold> {
        self.view.look(query)
    }

    fn looks(&self) -> &Looks {
        self.view.looks()
    }

    fn tree(&mut self) -> Result<Arc<SnapTree>, Hold> {
        self.view.tree()
    }
}

impl Contents for PlainContents {
    ghost io = { λ contents. contents.io };

    ghost most = { λ contents. contents.longest };

    fn longest(&self) -> u64 {
        self.longest
    }

    fn find(&mut self, query: &Query) -> Result<Keys, Hold> {
        self.view.look(query)
    }

    fn block(&mut self, number: u64, places: &Pointers, want: u64) -> Result<Bytes, Hold> {
        let places = places_of(self.alloc, places.as_slice())?;
        let Some(bytes) = block_at(self.alloc, &self.blocks, places.as_slice(), want)? else {
            return Err(lost(self.alloc, number, places, want));
        };
        let copy = bytes.copy(self.alloc)?;
        let known = KnownBlock {
            places,
            digest: want,
            bytes: copy,
        };
        self.io.read.push(known)?;
        Ok(bytes)
    }

    fn room(&mut self, blocks: u8) -> Result<Pointers, Hold> {
        let Some(next) = self.next.checked_add(u32::from(blocks)) else {
            return Err(full(self.alloc, blocks));
        };
        let pointers = one_pointer(self.alloc, self.next)?;
        let copy = one_pointer(self.alloc, self.next)?;
        self.io.reserved.push(Reservation {
            pointers: copy,
            blocks,
        })?;
        self.next = next;
        Ok(pointers)
    }

    fn put(&mut self, places: &Pointers, block: &Bytes) -> Result<(), Hold> {
        let known = KnownBlock {
            places: places_of(self.alloc, places.as_slice())?,
            digest: short(block.as_slice()),
            bytes: block.copy(self.alloc)?,
        };
        put_at(self.alloc, &mut self.blocks, places.as_slice(), block)?;
        self.io.written.push(known)?;
        Ok(())
    }
}

// How many blocks the longest of some extents and holes has.
fn longest_of(values: &BTreeMap<Pos, Value>) -> u64
    ensures { All (λ entry. blocks_of entry.1 ≤ result) values.now.entries }
{
    let mut longest = 0;
    for (_, value) in values {
        longest = longest_with(value, longest);
    }
    longest
}

// The places of pointers.
fn places_of(alloc: Global, pointers: &[Pointer]) -> Result<Places, AllocError>
    ensures { IfOk result (λ places. places ≡ places_of pointers.now) }
{
    let mut places = Places::new(alloc);
    for pointer in pointers {
        places.push(pointer.place)?;
    }
    Ok(places)
}

// A copy of the block with a digest that stands at one of some places.
fn block_at(
    alloc: Global,
    blocks: &BTreeMap<u32, Bytes>,
    places: &[Place],
    want: u64,
) -> Result<Option<Bytes>, AllocError>
    ensures size { IfOk result (λ found. IfSome found (λ bytes. length bytes ≡ block_size)) }
    ensures digest { IfOk result (λ found. IfSome found (λ bytes. short_of bytes ≡ want)) }
{
    for place in places {
        if let Some(bytes) = blocks.get(&place.block) {
            if bytes.len() == BLOCK_SIZE && short(bytes.as_slice()) == want {
                return Ok(Some(bytes.copy(alloc)?));
            }
        }
    }
    Ok(None)
}

// Has a block stand at places.
fn put_at(
    alloc: Global,
    blocks: &mut BTreeMap<u32, Bytes>,
    places: &[Pointer],
    block: &Bytes,
) -> Result<(), AllocError> {
    for pointer in places {
        blocks.insert(pointer.place.block, block.copy(alloc)?)?;
    }
    Ok(())
}

// A pointer to a block of the device.
fn one_pointer(alloc: Global, block: u32) -> Result<Pointers, AllocError>
    ensures { IfOk result (λ pointers. pointers ≡ record {
      place = record { dev = 0; block = block };
      generation = 0;
    } ∷ []) }
{
    let place = Place { dev: 0, block };
    Pointers::from_slice(
        alloc,
        &[Pointer {
            place,
            generation: 0,
        }],
    )
}

// The block isn't at its places.
fn lost(alloc: Global, block: u64, places: Places, want: u64) -> Hold {
    Hold::Lost(Lost {
        block,
        want,
        places,
        got: Reads::new(alloc),
    })
}

// The device is full.
fn full(alloc: Global, need: u8) -> Hold {
    Hold::Short(Short {
        need,
        free: vol_types::Counts::new(alloc),
        held: vol_types::Counts::new(alloc),
    })
}
