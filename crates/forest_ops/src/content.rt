ghost use Rattle.std.specs.Prelude.{◌≡◌, ◌+◌, ◌-◌, ◌≤◌, ◌++◌, [], length, take, drop, replicate, IfOk, OnOk, OnErr};
ghost use Rattle.forest_ops.specs.Content.{max_size, resized, put_at, part_of, cut_size};

use std::alloc::{AllocError, Global};
use std::marker::Model;
use vol_types::{Bytes, Duplicate};

/// How many bytes a file may have.
pub const MAX_SIZE: u64 = 16_777_216;

// How many bytes a block has.
const BLOCK_BYTES: u64 = 4096;

// How many blocks one truncation cuts at most.
const MAX_CUT: u64 = 256;

/// The bytes of a file, which contracts see as a list. They are written in place.
#[derive(Drop)]
pub struct Content {
    bytes: Vec<u8>,
}

impl Model for Content {
    ghost use Rattle.std.specs.Prelude.{ℕ, List};

    ghost Value = { List ℕ };

    ghost view = { λ content. content.bytes.items };
}

impl Content {
    /// No bytes. It takes no memory.
    pub fn new(alloc: Global) -> Self
        ensures { result ≡ [] }
    {
        Content {
            bytes: Vec::new(alloc),
        }
    }

    /// So many zeros.
    pub fn zeros(alloc: Global, size: u64) -> Result<Self, AllocError>
        ensures { IfOk result (λ content. content ≡ replicate size 0) }
    {
        let mut content = Content::new(alloc);
        content.resize(size)?;
        Ok(content)
    }

    /// How many bytes there are.
    pub fn len(&self) -> usize
        ensures { result ≡ length self.now }
    {
        self.bytes.len()
    }

    /// At most so many bytes from an offset.
    pub fn read(&self, alloc: Global, offset: u64, len: u64) -> Result<Bytes, AllocError>
        ensures { IfOk result (λ bytes. bytes ≡ part_of offset len self.now) }
    {
        let start = self.bytes.len().min(offset as usize);
        let (_, rest) = self.bytes.as_slice().split_at(start);
        let (part, _) = rest.split_at(rest.len().min(len as usize));
        Bytes::from_slice(alloc, part)
    }

    /// Cuts the bytes to a size, or puts zeros behind them. An `Err` changes nothing.
    pub fn resize(&mut self, size: u64) -> Result<(), AllocError>
        ensures ok { OnOk result (self.new ≡ resized size self.old) }
        ensures err { OnErr result (self.new ≡ self.old) }
    {
        self.bytes.resize(size as usize, 0)
    }

    /// Puts bytes at an offset; zeros stand between the old end and the offset. An `Err` changes nothing. It costs what
    /// is put and what it makes the file longer.
    pub fn put(&mut self, offset: u64, put: &Bytes) -> Result<(), AllocError>
        requires { offset + length put.now ≤ max_size }
        ensures ok { OnOk result (self.new ≡ put_at offset put.now self.old) }
        ensures err { OnErr result (self.new ≡ self.old) }
    {
        let start = offset as usize;
        grow(&mut self.bytes, start + put.len())?;
        overwrite(&mut self.bytes, start, put.as_slice());
        Ok(())
    }
}

impl Duplicate for Content {
    fn copy(&self, alloc: Global) -> Result<Self, AllocError> {
        Ok(Content {
            bytes: Vec::from_slice(alloc, self.bytes.as_slice())?,
        })
    }
}

// Puts zeros behind bytes up to a size, where they are shorter. An `Err` changes nothing.
fn grow(bytes: &mut Vec<u8>, size: usize) -> Result<(), AllocError>
    ensures ok { OnOk result (bytes.new.items ≡ bytes.old.items ++ replicate (size - length bytes.old.items) 0) }
    ensures err { OnErr result (bytes.new.items ≡ bytes.old.items) }
{
    if bytes.len() < size {
        bytes.resize(size, 0)?;
    }
    Ok(())
}

// Writes bytes over those from a place on.
fn overwrite(bytes: &mut Vec<u8>, start: usize, put: &[u8])
    requires { start + length put.now ≤ length bytes.old.items }
    ensures { bytes.new.items ≡ take start bytes.old.items ++ put.now ++ drop (start + length put.now) bytes.old.items }
{
    write_over(bytes.as_mut_slice(), start, put);
}

fn write_over(bytes: &mut [u8], start: usize, put: &[u8])
    requires { start + length put.now ≤ length bytes.old }
    ensures { bytes.new ≡ take start bytes.old ++ put.now ++ drop (start + length put.now) bytes.old }
{
    bytes[start..start + put.len()].copy_from_slice(put);
}

/// The size to which one truncation brings a file of a size.
pub fn cut_size(size: u64, wanted: u64) -> u64
    ensures { result ≡ cut_size size wanted }
{
    let blocks = size.div_ceil(BLOCK_BYTES);
    if blocks.saturating_sub(wanted.div_ceil(BLOCK_BYTES)) <= MAX_CUT {
        return wanted;
    }
    (blocks - MAX_CUT) * BLOCK_BYTES
}
