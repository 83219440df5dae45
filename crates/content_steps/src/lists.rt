ghost use Rattle.std.specs.Prelude.{◌≡◌, ℕ, List};
ghost use Rattle.file_plan.specs.Content.{resized as resized_bytes};
ghost use Rattle.file_plan.specs.Sizes.{cut_size as size_of_cut};
ghost use Rattle.file_plan.specs.Writes.{written};
ghost use Rattle.forest_ops.specs.Content.{cut_size, put_at, resized};

/// The bytes of a file after a write and after a truncation, place by place, are those of the plain forest's operations, and one
/// truncation comes to the same size.
pub fn written_bytes_are_put()
    ensures written { (offset : ℕ) (bytes old : List ℕ)
        → written offset bytes old ≡ put_at offset bytes old }
    ensures resized { (size : ℕ) (old : List ℕ) → resized_bytes old size ≡ resized size old }
    ensures cut { (size wanted : ℕ) → size_of_cut size wanted ≡ cut_size size wanted }
{}
