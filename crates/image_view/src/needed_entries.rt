ghost use Rattle.std.specs.Prelude.{◌≡◌, ◌+◌, ◌-◌, ◌≤◌, Ok, length};
ghost use Rattle.dev_model.specs.Disk.{Image};
ghost use Rattle.image_view.specs.Found.{Found, found};

use journal_ring::{leading_entries_are_needed, one_entry_counts};
use record_codec::entries_are_exact;
use sealed_block::opened_blocks_are_sealed;

/// The newest entry of what was found needs none behind itself, and of each sequence from its oldest needed one up to its own one
/// entry is needed.
pub fn needed_entries_are_counted()
    ensures oldest { (image : Image) (f : Found) → found image ≡ Ok f
        → f.last.entry.oldest ≤ f.last.entry.sequence }
    ensures count { (image : Image) (f : Found) → found image ≡ Ok f
        → length f.needed ≡ f.last.entry.sequence - f.last.entry.oldest + 1 }
{
    leading_entries_are_needed();
    one_entry_counts();
    entries_are_exact();
    opened_blocks_are_sealed();
}
