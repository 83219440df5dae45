ghost use Rattle.std.specs.Prelude.{◌≡◌};
ghost use Rattle.uuid.specs.Text.{hyphenated_text, lower};

use uuid::Uuid;

/// The id as text: hyphenated, in lower case.
#[tactic(auto, using(crate::proofs::IdText::length_hyphenated))]
pub fn id_text(id: &[u8; 16]) -> [u8; 36]
    ensures { result ≡ hyphenated_text lower id.now }
{
    let mut buffer = [0; 36];
    let text = Uuid::from_bytes(*id).hyphenated().encode_lower(&mut buffer);
    let mut copy = [0; 36];
    copy.copy_from_slice(text.as_bytes());
    copy
}
