ghost use Rattle.std.specs.Prelude.{ℕ, Bool, List, ◌≡◌, ◌+◌, ◌-◌, ◌==◌, ◌^◌, ◌<◌, ◌≤◌, [], true, length, Ok, IfErr, OnOk, OnErr};
ghost use Rattle.dev_model.specs.Crashes.{EachCrash, IsCrashImageBut, SameBut};
ghost use Rattle.dev_model.specs.Devices.{now};
ghost use Rattle.dev_model.specs.Disk.{as_read};
ghost use Rattle.dev_model.specs.Frames.{GoOn, after_writes};
ghost use Rattle.dev_model.specs.HeldBlocks.{HoldOnly};
ghost use Rattle.geometry.specs.Faults.{failed_device};
ghost use Rattle.geometry.specs.Mirrors.{HoldMirrors, NamesOneOf};
ghost use Rattle.record_codec.specs.Entries.{IsEntry, IsEntryInRange};
ghost use Rattle.vol_types.specs.Layouts.{is_layout};
ghost use Rattle.journal_ring.specs.EntryBlocks.{AreEntryBlocks, parts_of, ring_block};
ghost use Rattle.journal_ring.specs.Rings.{HaveArea, HoldsParts, IsClear, IsPartAsked, IsPartPlace, part_bytes, part_number, part_place, ring_of, used, with_first, with_flight, with_part};

use crate::blocks::sealed_parts;
use dev_model::Devices;
use geometry::{DiskFault, write_mirrors};
use record_codec::{EntryRecord, entry_lengths, put_entry};
use std::alloc::{AllocError, Global};
use std::marker::Model;
use vol_types::{BLOCK_SIZE, Layout};

/// The ring has too few blocks left.
#[derive(Clone, Copy, PartialEq, Eq)]
pub struct RingFull {
    /// How many blocks are left: those of the journal area that hold nothing that is needed.
    pub left: u32,
    /// How many are needed.
    pub need: u32,
}

/// The writing side of a volume's journal: the next journal block number, the first one that is still needed, and the
/// entry in flight. The blocks from the first needed number to the next one are kept.
#[derive(Drop)]
pub struct Ring {
    id: [u8; 16],
    mirrors: u8,
    journal: u32,
    next: u64,
    first: u64,
    // of the entry in flight, which ends before `next`
    blocks: Vec<[u8; BLOCK_SIZE]>,
    written: usize,
}

impl Model for Ring {
    ghost use Rattle.journal_ring.specs.Rings.{RingState, IsRing};

    ghost Value = { RingState };

    ghost view = { λ ring. record { id = ring.id; mirrors = ring.mirrors; journal = ring.journal; next = ring.next; first = ring.first; blocks = ring.blocks.items; written = ring.written } };

    ghost invariant = { λ ring. IsRing (record { id = ring.id; mirrors = ring.mirrors; journal = ring.journal; next = ring.next; first = ring.first; blocks = ring.blocks.items; written = ring.written }) };
}

impl Ring {
    /// The ring of a volume, with this next and this first needed journal block number, and no entry in flight. It takes no
    /// memory.
    pub fn of(alloc: Global, layout: &Layout, next: u64, first: u64) -> Ring
        requires layout { is_layout layout.now ≡ true }
        requires order { first ≤ next }
        ensures { result ≡ ring_of layout.now next first }
    {
        Ring {
            id: layout.id,
            mirrors: layout.metadata_replicas,
            journal: layout.journal,
            next,
            first,
            blocks: Vec::new(alloc),
            written: 0,
        }
    }

    /// The next journal block number.
    pub fn next(&self) -> u64
        ensures { result ≡ self.now.next }
    {
        self.next
    }

    /// The first journal block number that is needed.
    pub fn first(&self) -> u64
        ensures { result ≡ self.now.first }
    {
        self.first
    }

    /// Whether no entry is in flight.
    pub fn is_free(&self) -> bool
        ensures { result ≡ (length self.now.blocks == 0) }
    {
        self.blocks.is_empty()
    }

    /// Whether all parts of the entry in flight are written, if there is one.
    pub fn is_written(&self) -> bool
        ensures { result ≡ (self.now.written == length self.now.blocks) }
    {
        self.written == self.blocks.len()
    }

    /// How many blocks of the journal area hold nothing that is kept.
    pub fn left(&self) -> u32
        ensures { result ≡ self.now.journal - used self.now }
    {
        let used = self.next - self.first;
        u64::from(self.journal).saturating_sub(used) as u32
    }

    /// Whether so many blocks more fit beside those that are kept.
    pub fn fits(&self, need: u32) -> Result<(), RingFull>
        ensures ok { OnOk result (used self.now + need ≤ self.now.journal) }
        ensures full { OnErr result (self.now.journal < used self.now + need) }
        ensures numbers { IfErr result (λ full. full
            ≡ record { left = self.now.journal - used self.now; need = need }) }
    {
        let used = self.next - self.first;
        let journal = u64::from(self.journal);
        if used <= journal && u64::from(need) <= journal - used {
            return Ok(());
        }
        Err(RingFull {
            left: self.left(),
            need,
        })
    }

    /// Puts an entry in flight, under the next numbers. Nothing is written. It takes memory for the entry's bytes and its
    /// blocks; an `Err` changes nothing.
    pub fn stage(&mut self, alloc: Global, entry: &EntryRecord) -> Result<(), AllocError>
        requires free { self.old.blocks ≡ [] }
        requires entry { IsEntryInRange entry.now }
        requires few { parts_of entry.now ≤ 64 }
        requires fits { used self.old + parts_of entry.now ≤ self.old.journal }
        requires numbers { self.old.next + parts_of entry.now < 2 ^ 64 }
        ensures ok { OnOk result (self.new ≡ with_flight self.new.blocks self.old) }
        // These are the blocks of the entry, which is whole where they stand on every metadata device.
        ensures blocks { OnOk result (AreEntryBlocks self.old.id self.old.next entry.now self.new.blocks) }
        ensures entry { OnOk result (IsEntry entry.now) }
        // What is needed isn't written over: no block of the entry has the place of a needed number.
        ensures clear { OnOk result ((number : ℕ) → self.old.next ≤ number
            → number < self.new.next → IsClear self.old number) }
        ensures err { OnErr result (self.new ≡ self.old) }
    {
        entry_lengths();
        let payload = put_entry(alloc, entry)?;
        let blocks = sealed_parts(alloc, &self.id, self.next, entry, payload.as_slice())?;
        self.next += blocks.len() as u64;
        self.blocks = blocks;
        self.written = 0;
        Ok(())
    }

    /// Writes the next part of the entry in flight on every metadata device, and says whether it was the last one. It costs
    /// that many writes and takes no memory. Until the devices are flushed, a crash may leave any bytes at the part's places,
    /// and these hold nothing that is needed, nor any part before. After an `Err` the part is still the next one.
    pub fn write_part<D: Devices>(&mut self, devices: &mut D) -> Result<bool, DiskFault>
        requires area { HaveArea (D.state devices.old).sizes self.old.mirrors self.old.journal }
        requires left { self.old.written < length self.old.blocks }
        ensures ok { OnOk result (self.new ≡ with_part self.old) }
        ensures last { OnOk result (result ≡ Ok (self.new.written == length self.new.blocks)) }
        ensures err { OnErr result (self.new ≡ self.old) }
        ensures clear { IsClear self.old (part_number self.old) }
        ensures crashes { D.tells → EachCrash (λ _ _ image. IsCrashImageBut (IsPartPlace self.old)
            (now (D.state devices.old)) image) (D.state devices.old) (D.state devices.new) }
        ensures written { D.tells → OnOk result (HoldMirrors self.old.mirrors (part_place self.old)
            (part_bytes self.old) (as_read (now (D.state devices.new)))) }
        ensures elsewhere { D.tells → SameBut (IsPartPlace self.old)
            (as_read (now (D.state devices.old))) (as_read (now (D.state devices.new))) }
        // Where the parts before it stand, this one stands with them, so that after the last one all do.
        ensures held { D.tells → HoldsParts self.old self.old.written (as_read (now
            (D.state devices.old))) → OnOk result (HoldsParts self.old (self.old.written + 1)
            (as_read (now (D.state devices.new)))) }
        ensures asks { D.tells → (opens : List ℕ → Bool) → HoldOnly opens (IsPartAsked self.old)
            (D.state devices.old) (D.state devices.new) }
        ensures goes_on { GoOn (D.state devices.old) (D.state devices.new) }
        ensures cause { (D.state devices.new).faults ≡ after_writes (failed_device result)
            (D.state devices.old).faults }
        ensures device { NamesOneOf self.old.mirrors result }
    {
        let number = self.next - self.blocks.len() as u64 + self.written as u64;
        let place = ring_block(self.journal, number);
        write_mirrors(devices, self.mirrors, place, &self.blocks[self.written])?;
        self.written += 1;
        Ok(self.written == self.blocks.len())
    }

    /// Takes a number as the first needed one, and leaves no entry in flight.
    pub fn settle(&mut self, oldest: u64)
        requires written { self.old.written ≡ length self.old.blocks }
        requires order { oldest ≤ self.old.next }
        ensures { self.new ≡ with_first oldest self.old }
    {
        self.first = oldest;
        self.blocks.clear();
        self.written = 0;
    }
}

// The block of each metadata device where a journal block number lies.
pub(crate) fn ring_block(journal: u32, number: u64) -> u32
    requires some { 0 < journal }
    requires most { journal ≤ 4096 }
    ensures place { result ≡ ring_block journal number }
{
    16 + (number % u64::from(journal)) as u32
}
