ghost use Rattle.std.specs.Prelude.{◌≡◌, ◌<◌, ◌≤◌, [], ℕ, List, length, IfOk};
ghost use Rattle.vol_types.specs.Faults.{CountsFaults};
ghost use Rattle.std.specs.Io.KnownBytes.{ReadConsumes, WriteAppends};

use crate::{Sink, Source};
use dev_model::Devices;
use std::io::{Read, Write};
use vol_types::Failed;

/// A source over a reader. It tells nothing of the reader's bytes. Each error of the reader is a fault, whatever its
/// kind: `Interrupted` too, which comes only to a program that handles signals.
#[derive(Drop)]
pub struct StdSource<R> {
    inner: R,
    faults: u64,
}

impl<R: Read> StdSource<R> {
    ghost use Rattle.text_io.specs.Adapters.{reader_of};

    /// A source over this reader.
    pub fn new(inner: R) -> Self
        ensures inner { reader_of result ≡ inner }
        ensures faults { ⟦<StdSource<R> as Source>⟧.faults result ≡ 0 }
    {
        StdSource { inner, faults: 0 }
    }

    /// The reader.
    pub fn into_inner(self) -> R
        ensures { result ≡ reader_of self }
    {
        self.inner
    }
}

impl<R: Read> Source for StdSource<R> {
    ghost use Rattle.text_io.specs.Adapters.{reader_of};

    ghost tells = { ⊥ };

    ghost left = { λ _. [] };

    ghost faults = { λ source. source.faults };

    fn take(&mut self, into: &mut [u8]) -> Result<usize, Failed>
        ensures count { IfOk result (λ n. n ≤ length into.old) }
        ensures cause { CountsFaults result self.old.faults self.new.faults }

        // Where std's contract of the reader knows the bytes that it has left, these come.
        ensures read { ReadConsumes (R.remaining (reader_of self.old))
            (R.remaining (reader_of self.new)) result into.new }
    {
        match self.inner.read(into) {
            Ok(n) => Ok(n),
            Err(_) => {
                self.faults = self.faults.saturating_add(1);
                Err(Failed)
            }
        }
    }
}

/// A sink over a writer. It tells nothing of what the writer holds. Each error of the writer is a fault, whatever its
/// kind, and so is a write of nothing where there was something to write. It doesn't flush the writer.
#[derive(Drop)]
pub struct StdSink<W> {
    inner: W,
    faults: u64,
}

impl<W: Write> StdSink<W> {
    ghost use Rattle.text_io.specs.Adapters.{faults_of, writer_of};

    /// A sink over this writer.
    pub fn new(inner: W) -> Self
        ensures inner { writer_of result ≡ inner }
        ensures faults { faults_of result ≡ 0 }
    {
        StdSink { inner, faults: 0 }
    }

    /// The writer.
    pub fn into_inner(self) -> W
        ensures { result ≡ writer_of self }
    {
        self.inner
    }
}

impl<W: Write, D: Devices> Sink<D> for StdSink<W> {
    ghost use Rattle.text_io.specs.Adapters.{faults_of, writer_of};

    ghost tells = { ⊥ };

    ghost held = { λ _. [] };

    ghost given_at = { λ _. [] };

    ghost faults = { faults_of };

    fn give(&mut self, from: &[u8], _devices: &D) -> Result<usize, Failed>
        ensures count { IfOk result (λ n. n ≤ length from.now) }
        ensures progress { IfOk result (λ n. 0 < length from.now → 1 ≤ n) }
        ensures cause { CountsFaults result self.old.faults self.new.faults }

        // Where std's contract of the writer knows the bytes that it holds, these are added.
        ensures written { WriteAppends (W.contents (writer_of self.old))
            (W.contents (writer_of self.new)) result from.now }
    {
        match self.inner.write(from) {
            Ok(n) if n > 0 || from.is_empty() => Ok(n),
            _ => {
                self.faults = self.faults.saturating_add(1);
                Err(Failed)
            }
        }
    }
}
