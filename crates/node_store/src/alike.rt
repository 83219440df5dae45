ghost use Rattle.std.specs.Prelude.{◌≡◌, ◌↔◌, ◌<◌, ℕ, Contains, IsTrue, option_copied};
ghost use Rattle.node_store.specs.Answers.{AreAlike};
ghost use Rattle.node_store.specs.Copies.{block_in};

use crate::opening::{Copied, OpenBlock, block_in};
use sealed_block::Head;

fn is_same_head(one: &Head, other: &Head) -> bool
    ensures { IsTrue result ↔ (one.now ≡ other.now) }
{
    *one == *other
}

fn are_same_bytes(one: &[u8], other: &[u8]) -> bool
    ensures { IsTrue result ↔ (one.now ≡ other.now) }
{
    one == other
}

fn is_same_open(one: &OpenBlock, other: &OpenBlock) -> bool
    ensures { IsTrue result ↔ (one.now ≡ other.now) }
{
    is_same_head(&one.head, &other.head)
        && are_same_bytes(one.payload.as_slice(), other.payload.as_slice())
}

fn is_same_block(one: Option<&OpenBlock>, other: Option<&OpenBlock>) -> bool
    ensures { IsTrue result ↔ (option_copied one.entry ≡ option_copied other.entry) }
{
    match (one, other) {
        (None, None) => true,
        (Some(one), Some(other)) => is_same_open(one, other),
        _ => false,
    }
}

// Whether two copies show the same in each block before this one.
fn is_same_before(one: &Copied, other: &Copied, end: u8) -> bool
    ensures { IsTrue result ↔ ((n : ℕ) → n < end → block_in one.now n ≡ block_in other.now n) }
{
    for n in 0..end {
        if !is_same_block(block_in(one, n as usize), block_in(other, n as usize)) {
            return false;
        }
    }
    true
}

/// Whether all copies show the same in each block before this one.
pub(crate) fn are_alike(copies: &[Copied], end: u8) -> bool
    ensures { IsTrue result ↔ AreAlike end copies.now }
{
    let [first, rest @ ..] = copies else {
        return true;
    };
    for copy in rest {
        if !is_same_before(first, copy, end) {
            return false;
        }
    }
    true
}
