ghost use Rattle.std.specs.Prelude.{◌≡◌, ◌+◌, ◌-◌, ◌<◌, ◌≤◌, ◌^◌, ◌↔◌, ◌++◌, ◌∷◌, [], ℕ, Bool, List, All, None, Some, IsSome, IfSome, IfOk, IfErr, OnOk, OnErr, drop, if◌then◌else◌, length, min, take, true};
ghost use Rattle.dev_model.specs.Devices.{IsFlush};
ghost use Rattle.journal_writer.specs.Queues.{AreChanges, record_of};
ghost use Rattle.geometry.specs.Faults.{failed_device};
ghost use Rattle.geometry.specs.Mirrors.{NamesOneOf};
ghost use Rattle.journal_ring.specs.EntryBlocks.{AreEntryBlocks, parts_of};
ghost use Rattle.journal_ring.specs.Rings.{HaveArea, IsClear, part_number, used, with_flight};
ghost use Rattle.record_codec.specs.Entries.{IsEntry, IsEntryInRange};
ghost use Rattle.vol_types.specs.Layouts.{is_layout};
ghost use Rattle.vol_types.specs.Ranges.{IsNode};
ghost use Rattle.journal_writer.specs.Writers.{HasBlockNumbers, HasRoom, IsFlying, IsSealed, IsWhy, IsWriterOpened, first_flag, flush_before, most_devices, settled, stage_of, starts_of, step_of, unsettled_by, with_flushed, with_next_part};
ghost use Rattle.journal_writer.specs.Writes.{WritesPart};
ghost use Rattle.journal_writer.specs.declared.stage.Stage.TheVariants.{Rest, Seal, Settle, WriteEntry};

use crate::flags::{first_flag, set_flags};
use crate::{Durable, KeyChanges, Pending, Stage};
use dev_model::Devices;
use geometry::DiskFault;
use journal_ring::{FoundEntry, Ring, RingFull, entry_parts};
use record_codec::EntryRecord;
use std::alloc::{AllocError, Global};
use std::collections::VecDeque;
use std::marker::Model;
use vol_types::{Failed, Layout, Roots, layouts_are_tested};

/// An entry in flight, which is being written.
#[derive(PartialEq, Eq, Drop)]
pub struct Flight {
    pub entry: Pending,
    /// The sequence of the oldest entry that it needs, up to its own.
    pub oldest: u64,
}

/// Why an entry isn't put in flight.
#[derive(PartialEq, Eq, Drop)]
pub enum Why {
    /// The numbers of its blocks aren't left.
    Spent,
    /// The journal has no room for it. What this program writes leaves room for an entry always.
    RingFull(RingFull),
    /// Out of memory.
    NoMemory,
}

/// An entry that isn't put in flight, and why.
#[derive(Drop)]
pub struct Unsealed {
    pub entry: Pending,
    pub why: Why,
}

/// The writing side of a journal.
#[derive(Drop)]
pub struct EntryWriter {
    ring: Ring,
    flight: Option<Flight>,
    starts: VecDeque<u64>,
    durable: Durable,
    unsettled: [bool; 8],
    // of the ring: its metadata devices, and whether a part of the entry in flight was written
    mirrors: u8,
    begun: bool,
}

impl Model for EntryWriter {
    ghost use Rattle.journal_writer.specs.Writers.{IsKept, Writer};

    ghost Value = { Writer };

    ghost view = { λ w. record { ring = w.ring; flight = w.flight; starts = w.starts.items; durable = w.durable; unsettled = w.unsettled } };

    ghost invariant = { λ w. IsKept w.mirrors w.begun (record { ring = w.ring; flight = w.flight; starts = w.starts.items; durable = w.durable; unsettled = w.unsettled }) };
}

impl EntryWriter {
    /// The writing side of a journal of which these entries are needed, the oldest first; the last one is the newest. It goes over
    /// their numbers.
    pub fn of(
        alloc: Global,
        layout: &Layout,
        needed: &[FoundEntry],
    ) -> Result<EntryWriter, AllocError>
        requires layout { is_layout layout.now ≡ true }
        requires needed { 0 < length needed.now }
        ensures { IfOk result (IsWriterOpened layout.now needed.now) }
    {
        // There are one to eight devices.
        layouts_are_tested();
        let newest = &needed[needed.len() - 1];
        let starts = starts_of(alloc, newest.end, needed)?;
        let first = starts[0];
        let mut unsettled = [false; 8];
        set_flags(&mut unsettled, layout.blocks.len() as u8);
        Ok(EntryWriter {
            ring: Ring::of(alloc, layout, newest.end, first),
            flight: None,
            starts,
            durable: Durable {
                sequence: newest.entry.sequence,
                commits: newest.entry.commits,
                oldest: newest.entry.oldest,
                first,
            },
            unsettled,
            mirrors: layout.metadata_replicas,
            begun: false,
        })
    }

    /// The last durable entry.
    pub fn durable(&self) -> &Durable
        ensures { result.now ≡ self.now.durable }
    {
        &self.durable
    }

    /// The entry in flight, if there is one.
    pub fn flight(&self) -> Option<&Flight>
        ensures none { IsSome result ↔ IsSome self.now.flight }
        ensures some { IfSome result (λ flight. self.now.flight ≡ Some flight.now) }
        ensures kept { IfSome result (λ flight. IsFlying self.now flight.now) }
    {
        self.flight.as_ref()
    }

    /// The next step that the journal needs, where a further entry is needed or not. It takes no memory.
    pub fn stage(&self, needed: bool) -> Stage
        ensures { result ≡ stage_of needed self.now }
    {
        match &self.flight {
            None => rest_or_seal(needed),
            Some(_) => self.step(),
        }
    }

    // The next step of the entry in flight.
    fn step(&self) -> Stage
        ensures { result ≡ step_of self.now }
    {
        if !self.begun {
            return flush_before(first_flag(&self.unsettled), Stage::WriteEntry);
        }
        if self.ring.is_written() {
            return flush_before(self.first_unsettled(), Stage::Settle);
        }
        Stage::WriteEntry
    }

    /// Puts an entry in flight, which needs the entries from the sequence `oldest` on, was written in this session, and has these roots.
    /// Nothing is written. It costs what the entry's bytes do, and memory for them and their blocks; an `Err` changes nothing, and hands the
    /// entry back.
    pub fn seal(
        &mut self,
        alloc: Global,
        entry: Pending,
        oldest: u64,
        session: u64,
        roots: Roots,
    ) -> Result<(), Unsealed>
        requires free { self.old.flight ≡ None }
        requires changes { AreChanges self.old.ring.mirrors entry.changes }
        requires sequence { entry.after + 1 < 2 ^ 64 }
        requires oldest { oldest ≤ entry.after + 1 }
        requires count { length roots ≡ 9 }
        requires roots { All IsNode roots }
        ensures ok { OnOk result (IsSealed entry oldest session roots self.old self.new) }
        ensures err { OnErr result (self.new ≡ self.old) }
        ensures kept { IfErr result (λ unsealed. unsealed.entry ≡ entry) }
        ensures why { IfErr result (λ unsealed. IsWhy self.old.ring
            (parts_of (record_of oldest session roots entry)) unsealed.why) }
    {
        let Pending {
            after,
            behind,
            commits,
            changes,
        } = entry;
        let KeyChanges { updates, before } = changes;
        let record = EntryRecord {
            sequence: after + 1,
            oldest,
            session,
            commits,
            roots,
            updates,
        };
        let staged = stage_record(alloc, &mut self.ring, &mut self.starts, &record);
        let EntryRecord { roots, updates, .. } = record;
        drop(roots);
        let entry = Pending {
            after,
            behind,
            commits,
            changes: KeyChanges { updates, before },
        };
        match staged {
            Ok(()) => {
                self.flight = Some(Flight { entry, oldest });
                Ok(())
            }
            Err(why) => Err(Unsealed { entry, why }),
        }
    }

    /// Writes the next part of the entry in flight on every metadata device. It costs that many writes and takes no memory. Until the
    /// devices are flushed, a crash may leave any bytes at the part's places, and these hold nothing that is needed, nor any part
    /// before. After an `Err` the part is still the next one.
    pub fn write_part<D: Devices>(&mut self, devices: &mut D) -> Result<(), DiskFault>
        requires area { HaveArea (D.state devices.old).sizes self.old.ring.mirrors
            self.old.ring.journal }
        requires flight { IsSome self.old.flight }
        requires stage { step_of self.old ≡ WriteEntry }
        ensures ok { OnOk result (self.new ≡ with_next_part self.old) }
        ensures err { OnErr result (self.new ≡ unsettled_by self.old) }
        ensures clear { IsClear self.old.ring (part_number self.old.ring) }
        ensures writes { WritesPart D.tells self.old.ring (failed_device result)
            (D.state devices.old) (D.state devices.new) }
        ensures named { NamesOneOf self.old.ring.mirrors result }
    {
        set_flags(&mut self.unsettled, self.mirrors);
        match self.ring.write_part(devices) {
            Err(fault) => Err(fault),
            Ok(_) => {
                self.begun = true;
                Ok(())
            }
        }
    }

    /// Flushes a device. It takes no memory.
    pub fn flush<D: Devices>(&mut self, devices: &mut D, dev: u8) -> Result<(), Failed>
        requires there { dev < length (D.state devices.old).sizes }
        requires few { dev < most_devices }
        ensures ok { OnOk result (self.new ≡ with_flushed dev self.old) }
        ensures err { OnErr result (self.new ≡ self.old) }
        ensures call { IsFlush D.tells dev result (D.state devices.old) (D.state devices.new) }
        ensures sizes { (D.state devices.new).sizes ≡ (D.state devices.old).sizes }
    {
        devices.flush(dev)?;
        self.unsettled[usize::from(dev)] = false;
        Ok(())
    }

    /// Says that something else was written to the metadata devices, so that these are to be flushed. It takes no memory.
    pub fn unsettle(&mut self)
        ensures { self.new ≡ unsettled_by self.old }
    {
        let mirrors = self.mirrors;
        set_flags(&mut self.unsettled, mirrors);
    }

    /// The first metadata device on which something isn't settled, if there is one.
    pub fn first_unsettled(&self) -> Option<u8>
        ensures { result ≡ first_flag 0 (take self.now.ring.mirrors self.now.unsettled) }
    {
        let (metadata, _) = self.unsettled.split_at(usize::from(self.mirrors));
        first_flag(metadata)
    }

    /// Takes the entry in flight as the last durable one, and lets go what it needs no more. It takes no memory.
    pub fn settle(&mut self)
        requires flight { IsSome self.old.flight }
        requires stage { step_of self.old ≡ Settle }
        ensures { self.new ≡ settled self.old }
    {
        let Some(flight) = &self.flight else {
            unreachable!()
        };
        let sequence = flight.entry.after + 1;
        let commits = flight.entry.commits;
        let oldest = flight.oldest;
        land(&mut self.flight);
        let passed = passed(oldest, self.durable.oldest, self.starts.len());
        drop_first(&mut self.starts, passed);
        let first = self.starts[0];
        self.ring.settle(first);
        self.begun = false;
        self.durable = Durable {
            sequence,
            commits,
            oldest,
            first,
        };
    }
}

// Lets the entry in flight go.
fn land(flight: &mut Option<Flight>)
    ensures { flight.new ≡ None }
{
    *flight = None;
}

// The numbers of the first blocks of entries, which lie before the end of the newest one.
fn starts_of(alloc: Global, end: u64, needed: &[FoundEntry]) -> Result<VecDeque<u64>, AllocError>
    ensures { IfOk result (λ starts. starts.items ≡ starts_of end needed.now) }
{
    let mut starts = VecDeque::new(alloc);
    for found in needed {
        starts.push_back(found.number.min(end))?;
    }
    Ok(starts)
}

// Nothing to do, or an entry to put in flight where one is needed.
fn rest_or_seal(needed: bool) -> Stage
    ensures { result ≡ (if needed then Seal else Rest) }
{
    if needed { Stage::Seal } else { Stage::Rest }
}

// A flush of a device, if there is one, and else another stage.
fn flush_before(dev: Option<u8>, stage: Stage) -> Stage
    ensures { result ≡ flush_before dev stage }
{
    match dev {
        None => stage,
        Some(dev) => Stage::Flush(dev),
    }
}

// How many of the entries that the last durable one needs, a new one needs no more.
fn passed(oldest: u64, before: u64, starts: usize) -> usize
    requires { 0 < starts }
    ensures exact { result ≡ min (oldest - before) (starts - 1) }
    ensures fewer { result < starts }
{
    let most = starts - 1;
    let risen = oldest.saturating_sub(before);
    if risen < most as u64 {
        risen as usize
    } else {
        most
    }
}

// Drops the first so many numbers.
fn drop_first(starts: &mut VecDeque<u64>, count: usize)
    requires { count ≤ length starts.old.items }
    ensures { starts.new.items ≡ drop count starts.old.items }
{
    for _ in 0..count {
        let _ = starts.pop_front();
    }
}

// Puts a record in flight under the next numbers, if these are left and the ring has room.
fn stage_record(
    alloc: Global,
    ring: &mut Ring,
    starts: &mut VecDeque<u64>,
    entry: &EntryRecord,
) -> Result<(), Why>
    requires free { ring.old.blocks ≡ [] }
    requires entry { IsEntryInRange entry.now }
    requires few { parts_of entry.now < 2 ^ 32 }
    ensures numbers { OnOk result (HasBlockNumbers ring.old (parts_of entry.now)) }
    ensures room { OnOk result (HasRoom ring.old (parts_of entry.now)) }
    ensures ring { OnOk result (ring.new ≡ with_flight ring.new.blocks ring.old) }
    ensures starts { OnOk result (starts.new.items ≡ starts.old.items ++ ring.old.next ∷ []) }
    ensures blocks { OnOk result (AreEntryBlocks ring.old.id ring.old.next entry.now
        ring.new.blocks) }
    ensures valid { OnOk result (IsEntry entry.now) }
    ensures clear { OnOk result ((number : ℕ) → ring.old.next ≤ number
        → number < ring.new.next → IsClear ring.old number) }
    ensures ring_kept { OnErr result (ring.new ≡ ring.old) }
    ensures starts_kept { OnErr result (starts.new.items ≡ starts.old.items) }
    ensures why { IfErr result (IsWhy ring.old (parts_of entry.now)) }
{
    let parts = entry_parts(entry);
    let next = ring.next();
    if parts > u64::MAX - next {
        return Err(Why::Spent);
    }
    if let Err(full) = room_for(ring, parts as u32) {
        return Err(Why::RingFull(full));
    }
    if starts.reserve(1).is_err() {
        return Err(Why::NoMemory);
    }
    if ring.stage(alloc, entry).is_err() {
        return Err(Why::NoMemory);
    }
    starts.push_back_reserved(next);
    Ok(())
}

// Whether the ring has room for an entry of so many blocks.
fn room_for(ring: &Ring, parts: u32) -> Result<(), RingFull>
    ensures ok { OnOk result (HasRoom ring.now parts) }
    ensures full { OnErr result (¬ HasRoom ring.now parts) }
    ensures numbers { IfErr result (λ full. full
        ≡ record { left = ring.now.journal - used ring.now; need = parts }) }
{
    if parts > 64 {
        // No ring has room for so many.
        return Err(RingFull {
            left: ring.left(),
            need: parts,
        });
    }
    ring.fits(parts)
}
