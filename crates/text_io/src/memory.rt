ghost use Rattle.std.specs.Prelude.{◌≡◌, ◌+◌, ◌<◌, ◌≤◌, ◌++◌, ◌↔◌, [], min, length, take, IsOk, IsErr, IfOk, OnOk, OnErr, MatchResult};
ghost use Rattle.vol_types.specs.Faults.{CountsFaults};
ghost use Rattle.text_io.specs.Memory.{IsToFail, CountsCall, no_calls};
ghost use Rattle.text_io.specs.Streams.{AreGivenAt};

use crate::calls::Calls;
use crate::{Sink, Source};
use dev_model::Devices;
use std::alloc::{AllocError, Global};
use std::marker::Model;
use vol_types::Failed;

/// A source in memory. It tells which bytes are left, and a call fails exactly where it is to.
#[derive(Drop)]
pub struct MemSource {
    bytes: Vec<u8>,
    taken: usize,
    calls: Calls,
}

impl Model for MemSource {
    ghost use Rattle.std.specs.Prelude.{◌<◌, ◌≤◌, length, drop};
    ghost use Rattle.text_io.specs.Memory.{SourceState};

    ghost Value = { SourceState };

    ghost view = { λ source. record { left = drop source.taken source.bytes.items; calls = source.calls } };

    ghost invariant = { λ source. (source.taken ≤ length source.bytes.items) × (0 < source.calls.most) };
}

impl MemSource {
    /// A source of these bytes. The calls with the numbers in `failing`, from 0, fail.
    pub fn new(alloc: Global, bytes: &[u8], failing: &[u64]) -> Result<Self, AllocError>
        ensures { IfOk result (λ source. source ≡ record
            { left = bytes.now; calls = no_calls failing.now }) }
    {
        Ok(MemSource {
            bytes: bytes.to_vec(alloc)?,
            taken: 0,
            calls: Calls::new(alloc, failing)?,
        })
    }

    /// The same source, that gives no more bytes a call than this.
    pub fn in_pieces(self, most: usize) -> Self
        requires { 0 < most }
        ensures { result ≡ record self { calls = record self.calls { most = most } } }
    {
        MemSource {
            calls: self.calls.in_pieces(most),
            ..self
        }
    }

    /// The bytes that are left.
    pub fn left(&self) -> &[u8]
        ensures { result.now ≡ self.now.left }
    {
        &self.bytes[self.taken..]
    }

    /// How many calls there were. The count stands still at its end.
    pub fn calls(&self) -> u64
        ensures { result ≡ self.now.calls.made }
    {
        self.calls.made()
    }

    /// How many of them failed.
    pub fn faults(&self) -> u64
        ensures { result ≡ self.now.calls.failed }
    {
        self.calls.failed()
    }
}

impl Source for MemSource {
    ghost tells = { Unit {0} };

    ghost left = { λ source. source.left };

    ghost faults = { λ source. source.calls.failed };

    fn take(&mut self, into: &mut [u8]) -> Result<usize, Failed>
        ensures count { IfOk result (λ n. n ≤ length into.old) }
        ensures bytes { IfOk result (λ n. self.old.left ≡ take n into.new ++ self.new.left) }
        ensures end { IfOk result (λ n. n ≡ 0 → 0 < length into.old → self.old.left ≡ []) }
        ensures failed { OnErr result (self.new.left ≡ self.old.left) }
        ensures cause { CountsFaults result self.old.calls.failed self.new.calls.failed }

        ensures planned { IsErr result ↔ IsToFail self.old.calls }
        ensures amount { IfOk result (λ n. n ≡ min self.old.calls.most
            (min (length into.old) (length self.old.left))) }
        ensures call { CountsCall result self.old.calls self.new.calls }
    {
        let Ok(()) = self.calls.begin() else {
            return Err(Failed);
        };
        let left = &self.bytes[self.taken..];
        let n = self.calls.most().min(into.len().min(left.len()));
        into[..n].copy_from_slice(&left[..n]);
        self.taken += n;
        Ok(n)
    }
}

/// A sink in memory. It tells which bytes it holds. A call fails where it is to, and where there is no memory for
/// the bytes, which can't be while they fit the room that `reserve` made. Either failure is counted.
#[derive(Drop)]
pub struct MemSink {
    bytes: Vec<u8>,
    /// For each byte the moment of the devices at which it was given.
    given_at: Vec<u64>,
    calls: Calls,
}

impl Model for MemSink {
    ghost use Rattle.std.specs.Prelude.{◌≡◌, ◌-◌, ◌<◌, min, vec_len, vec_capacity};
    ghost use Rattle.text_io.specs.Memory.{SinkState};

    ghost Value = { SinkState };

    ghost view = { λ sink. record { held = sink.bytes.items; given_at = sink.given_at.items; room = min (vec_capacity sink.bytes - vec_len sink.bytes) (vec_capacity sink.given_at - vec_len sink.given_at); calls = sink.calls } };

    ghost invariant = { λ sink. (0 < sink.calls.most) × (vec_len sink.given_at ≡ vec_len sink.bytes) };
}

impl MemSink {
    /// A sink that holds nothing. The calls with the numbers in `failing`, from 0, fail.
    pub fn new(alloc: Global, failing: &[u64]) -> Result<Self, AllocError>
        ensures held { IfOk result (λ sink. sink.held ≡ []) }
        ensures calls { IfOk result (λ sink. sink.calls ≡ no_calls failing.now) }
    {
        Ok(MemSink {
            bytes: Vec::new(alloc),
            given_at: Vec::new(alloc),
            calls: Calls::new(alloc, failing)?,
        })
    }

    /// The same sink, that takes no more bytes a call than this.
    pub fn in_pieces(self, most: usize) -> Self
        requires { 0 < most }
        ensures { result ≡ record self { calls = record self.calls { most = most } } }
    {
        MemSink {
            calls: self.calls.in_pieces(most),
            ..self
        }
    }

    /// Makes room for so many bytes more.
    pub fn reserve(&mut self, bytes: usize) -> Result<(), AllocError>
        ensures room { OnOk result (bytes ≤ self.new.room) }
        ensures enough { bytes ≤ self.old.room → IsOk result }
        ensures less { self.old.room ≤ self.new.room }
        ensures others { self.new ≡ record self.old { room = self.new.room } }
    {
        self.bytes.reserve(bytes)?;
        self.given_at.reserve(bytes)
    }

    /// The bytes that it holds.
    pub fn held(&self) -> &[u8]
        ensures { result.now ≡ self.now.held }
    {
        &self.bytes
    }

    /// For each of these bytes the moment of the devices at which it was given.
    pub fn given_at(&self) -> &[u64]
        ensures { result.now ≡ self.now.given_at }
    {
        &self.given_at
    }

    /// How many calls there were. The count stands still at its end.
    pub fn calls(&self) -> u64
        ensures { result ≡ self.now.calls.made }
    {
        self.calls.made()
    }

    /// How many of them failed.
    pub fn faults(&self) -> u64
        ensures { result ≡ self.now.calls.failed }
    {
        self.calls.failed()
    }

    // Makes room for so many bytes more, or fails as a call does.
    fn make_room(&mut self, bytes: usize) -> Result<(), Failed>
        ensures ok { OnOk result (bytes ≤ self.new.room) }
        ensures enough { bytes ≤ self.old.room → IsOk result }
        ensures less { self.old.room ≤ self.new.room }
        ensures cause { CountsFaults result self.old.calls.failed self.new.calls.failed }
        ensures others { self.new ≡ record self.old {
          room = self.new.room;
          calls = record
              self.old.calls { failed = self.new.calls.failed };
        } }
    {
        match self.reserve(bytes) {
            Ok(()) => Ok(()),
            Err(_) => Err(self.calls.fail()),
        }
    }
}

impl<D: Devices> Sink<D> for MemSink {
    ghost tells = { Unit {0} };

    ghost held = { λ sink. sink.held };

    ghost given_at = { λ sink. sink.given_at };

    ghost faults = { λ sink. sink.calls.failed };

    fn give(&mut self, from: &[u8], devices: &D) -> Result<usize, Failed>
        ensures count { IfOk result (λ n. n ≤ length from.now) }
        ensures progress { IfOk result (λ n. 0 < length from.now → 1 ≤ n) }
        ensures bytes { IfOk result (λ n. self.new.held ≡ self.old.held ++ take n from.now) }
        ensures failed { OnErr result (self.new.held ≡ self.old.held) }
        ensures moment { AreGivenAt (D.state devices.now).moment self.old.held self.new.held
            self.old.given_at self.new.given_at }
        ensures cause { CountsFaults result self.old.calls.failed self.new.calls.failed }

        ensures planned { IsToFail self.old.calls → IsErr result }
        ensures unplanned { ¬ IsToFail self.old.calls → min self.old.calls.most
            (length from.now) ≤ self.old.room → IsOk result }
        ensures amount { IfOk result (λ n. n ≡ min self.old.calls.most (length from.now)) }
        ensures room { MatchResult result (λ n. self.old.room ≤ self.new.room + n)
            (λ _. self.old.room ≤ self.new.room) }
        ensures call { CountsCall result self.old.calls self.new.calls }
    {
        let Ok(()) = self.calls.begin() else {
            return Err(Failed);
        };
        let n = self.calls.most().min(from.len());
        let Ok(()) = self.make_room(n) else {
            return Err(Failed);
        };
        if self.bytes.extend_from_slice(&from[..n]).is_err() {
            unreachable!()
        }
        let held = self.bytes.len();
        if self.given_at.resize(held, devices.moment()).is_err() {
            unreachable!()
        }
        Ok(n)
    }
}
