ghost use Rattle.std.specs.Prelude.{◌≡◌, IfOk, option_copied};
ghost use Rattle.node_store.specs.Copies.{block_in, shown_in};

use sealed_block::{Head, payload, unseal};
use std::alloc::{AllocError, Global};
use vol_types::{Bytes, Listing};

/// A block that opened: its head and its payload.
#[derive(Drop)]
pub struct OpenBlock {
    pub head: Head,
    pub payload: Bytes,
}

/// What each block of a bucket shows at one of its places, in their order.
pub(crate) type Copied = Listing<Option<OpenBlock>>;

/// What a block's bytes show, if they open. It takes memory for the payload, and the time of one digest.
pub(crate) fn open_block(alloc: Global, bytes: &[u8]) -> Result<Option<OpenBlock>, AllocError>
    ensures { IfOk result (λ shown. shown ≡ shown_in bytes.now) }
{
    let Some(head) = unseal(bytes) else {
        return Ok(None);
    };
    Ok(Some(OpenBlock {
        head,
        payload: Bytes::from_slice(alloc, payload(bytes, &head))?,
    }))
}

/// What a block of a copy shows.
#[tactic(auto, using(crate::proofs::FlatBlocks::flat_none, crate::proofs::FlatBlocks::flat_some))]
pub(crate) fn block_in(copy: &Copied, n: usize) -> Option<&OpenBlock>
    ensures { option_copied result ≡ block_in copy.now n }
{
    match copy.get(n) {
        None => None,
        Some(shown) => shown.as_ref(),
    }
}
