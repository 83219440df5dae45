//! Digests: SHA-256 (FIPS 180-4) of bytes, and the shorter numbers that are taken from it.
#![tactic(auto)]

ghost use Rattle.std.specs.Prelude.{◌≡◌};
ghost use Rattle.sha2.specs.Sha256.{sha256};
ghost use Rattle.vol_digest.specs.Digests.{short_of, slot_of};

use sha2::{Digest, Sha256};

/// The SHA-256 digest of the bytes. It takes no memory, and time linear in the bytes.
pub fn digest(bytes: &[u8]) -> [u8; 32]
    ensures { result ≡ sha256 bytes.now }
{
    Sha256::digest(bytes)
}

/// The first eight bytes of the digest as a big-endian number. It takes no memory.
pub fn short(bytes: &[u8]) -> u64
    ensures { result ≡ short_of bytes.now }
{
    let [a, b, c, d, e, f, g, h, ..] = digest(bytes);
    u64::from_be_bytes([a, b, c, d, e, f, g, h])
}

/// Where a name stands in its directory: half of its short digest, so that it fits 63 bits. It takes no memory.
pub fn slot(name: &[u8]) -> u64
    ensures { result ≡ slot_of name.now }
{
    short(name) / 2
}

#[cfg(test)]
mod tests {
    use super::*;
    use std::test::Fail;

    // The digest of `abc` stands in FIPS 180-4's examples; that of `a` was computed by coreutils' sha256sum.
    #[test]
    fn known_digests(rt: HostRuntime) -> Result<(), Fail> {
        assert!(rt; short(b"abc") == 0xba78_16bf_8f01_cfea);
        assert!(rt; short(b"a") == 0xca97_8112_ca1b_bdca);
        assert!(rt; slot(b"a") == 0x654b_c089_650d_dee5);
        let whole = digest(b"abc");
        assert!(rt; whole.get(31).copied() == Some(0xad));
        Ok(())
    }
}
