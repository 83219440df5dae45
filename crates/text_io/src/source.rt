ghost use Rattle.std.specs.Prelude.{◌≡◌, ◌≢◌, ◌+◌, ◌<◌, ◌≤◌, ◌++◌, [], ℕ, List, length, take, drop, IfOk, OnOk, OnErr, IsErrOf};
ghost use Rattle.vol_types.specs.Faults.{CountsFaults, RoseBy};
ghost use Rattle.text_io.specs.Streams.{TakesUpTo, MovesOver};

use std::alloc::{AllocError, Global};
use vol_types::{Bytes, Failed};

/// Where bytes come from.
pub trait Source {
    /// It tells which bytes are left, or not.
    ghost tells: { Type 0 };

    /// The bytes that are left. They mean something only where they are told.
    ghost left: { Self → List ℕ };

    /// How many calls have failed. The count stands still at its end.
    ghost faults: { Self → ℕ };

    /// Moves bytes from what is left to the start of the piece, and says how many. 0 for a piece that isn't empty
    /// means the end. A source may give fewer bytes than there are, and goes on after a failure.
    fn take(&mut self, into: &mut [u8]) -> Result<usize, Failed>
        ensures count { IfOk result (λ n. n ≤ length into.old) }
        ensures bytes { tells → IfOk result (λ n. left self.old ≡ take n into.new ++ left self.new) }
        ensures end { tells → IfOk result (λ n. n ≡ 0 → 0 < length into.old → left self.old ≡ []) }
        ensures failed { tells → OnErr result (left self.new ≡ left self.old) }
        ensures cause { CountsFaults result (faults self.old) (faults self.new) };
}

/// Why not all bytes of a source were taken.
#[derive(Clone, Copy, PartialEq, Eq)]
pub enum TakeFault {
    /// A call of the source failed.
    ReadFault,
    /// There were more bytes than the limit.
    TooLong,
    /// Out of memory.
    NoMemory,
}

impl From<Failed> for TakeFault {
    ghost use Rattle.text_io.specs.declared.source.TakeFault.TheVariants.{ReadFault};

    ghost from_gives = { λ _ fault. fault ≡ ReadFault };

    fn from(_failed: Failed) -> Self {
        TakeFault::ReadFault
    }
}

impl From<AllocError> for TakeFault {
    ghost use Rattle.text_io.specs.declared.source.TakeFault.TheVariants.{NoMemory};

    ghost from_gives = { λ _ fault. fault ≡ NoMemory };

    fn from(_error: AllocError) -> Self {
        TakeFault::NoMemory
    }
}

/// Takes all bytes of the source to its end. It takes no more than `limit` + 1 of them, so that it ends at a source
/// that doesn't. Its memory is the bytes and a piece of 64 KiB, its time linear in the bytes.
pub fn take_all<S: Source>(alloc: Global, source: &mut S, limit: usize) -> Result<Bytes, TakeFault>
    ensures all { S.tells → IfOk result (λ bytes. bytes ≡ S.left source.old) }
    ensures end { S.tells → OnOk result (S.left source.new ≡ []) }
    ensures size { IfOk result (λ bytes. length bytes ≤ limit) }

    // TooLong comes only where more bytes were left than the limit, and then so many and one were taken.
    ensures too_long { S.tells → IsErrOf result TakeFault.TooLong
        → limit < length (S.left source.old) }
    ensures one_more { S.tells → IsErrOf result TakeFault.TooLong
        → S.left source.new ≡ drop (limit + 1) (S.left source.old) }

    // ReadFault comes exactly where a call failed.
    ensures read_fault { IsErrOf result TakeFault.ReadFault → RoseBy 1 (S.faults source.old)
        (S.faults source.new) }
    ensures no_fault { result ≢ Err TakeFault.ReadFault → S.faults source.new ≡ S.faults source.old }
    ensures later { S.faults source.old ≤ S.faults source.new }

    // What was taken is gone, whatever the answer.
    ensures taken { S.tells → TakesUpTo (limit + 1) (S.left source.old) (S.left source.new) }
{
    let mut piece = make_piece(alloc)?;
    let mut bytes = Bytes::new(alloc);
    while bytes.len() <= limit {
        let most = (limit - bytes.len()).saturating_add(1);
        if take_piece(source, most, &mut piece, &mut bytes)? == 0 {
            return Ok(bytes);
        }
    }
    Err(TakeFault::TooLong)
}

// Memory for what one call gives, 64 KiB.
fn make_piece(alloc: Global) -> Result<Vec<u8>, AllocError>
    ensures { IfOk result (λ piece. 0 < length piece.items) }
{
    vec![in alloc; 0; 65_536]
}

// Takes what one call gives, and puts it after the bytes.
fn take_piece<S: Source>(
    source: &mut S,
    most: usize,
    piece: &mut Vec<u8>,
    bytes: &mut Bytes,
) -> Result<usize, TakeFault>
    requires most { 0 < most }
    requires piece { 0 < length piece.old.items }
    ensures piece { 0 < length piece.new.items }
    ensures count { IfOk result (λ n. n ≤ most) }
    ensures size { IfOk result (λ n. length bytes.new ≡ length bytes.old + n) }
    ensures moved { S.tells → OnOk result (MovesOver bytes.old (S.left source.old) bytes.new
        (S.left source.new)) }
    ensures end { S.tells → IfOk result (λ n. n ≡ 0 → S.left source.old ≡ []) }
    ensures failed { S.tells → OnErr result (TakesUpTo most (S.left source.old) (S.left source.new)) }
    ensures not_too_long { result ≢ Err TakeFault.TooLong }
    ensures read_fault { IsErrOf result TakeFault.ReadFault → RoseBy 1 (S.faults source.old)
        (S.faults source.new) }
    ensures no_fault { result ≢ Err TakeFault.ReadFault → S.faults source.new ≡ S.faults source.old }
    ensures later { S.faults source.old ≤ S.faults source.new }
{
    let asked = most.min(piece.len());
    let prefix = &mut piece[..asked];
    let Ok(n) = source.take(prefix) else {
        return Err(TakeFault::ReadFault);
    };
    let Ok(()) = bytes.extend_from_slice(&prefix[..n]) else {
        return Err(TakeFault::NoMemory);
    };
    Ok(n)
}
