ghost use Rattle.std.specs.Prelude.{◌≡◌, ◌*◌, ◌≤◌, ℕ, All, Bool, List, None, Option, Some};
ghost use Rattle.content_steps.specs.Shown.{DoBlocksEnd, EndsWithin, with_blocks};
ghost use Rattle.extent_ops.specs.Content.{given_by, hidden_if};
ghost use Rattle.key_meaning.specs.Blocks.{Block};
ghost use Rattle.key_steps.specs.Good.{IsGoodShown};
ghost use Rattle.key_steps.specs.Shown.{Shown, with_inode};
ghost use Rattle.plain_forest.specs.Forest.{Names};
ghost use Rattle.vol_types.specs.Limits.{block_size};
ghost use Rattle.vol_types.specs.declared.keys.Key.{Key};
ghost use Rattle.vol_types.specs.declared.values.FileKind.TheVariants.{File};
ghost use Rattle.vol_types.specs.declared.values.Inode.{Inode};

/// What shows stays good where blocks are put below a file's end, where blocks are cut, and where a file gets a size at or behind
/// which no block of it shows, as a greater one is.
pub fn contents_stay_good()
    ensures put { (root : ℕ) (shown : Shown) (directories : List (ℕ × Names)) (file : ℕ)
        (given : ℕ → Option (Option Block)) → IsGoodShown root shown directories
        → DoBlocksEnd shown file given → IsGoodShown root (with_blocks file given shown) directories }
    ensures extents { (root : ℕ) (shown : Shown) (directories : List (ℕ × Names)) (file : ℕ)
        (old : Inode) (extents : List Key) → IsGoodShown root shown directories
        → shown.inodes file ≡ Some old → All (EndsWithin old.size) extents
        → IsGoodShown root (with_blocks file (given_by extents) shown) directories }
    ensures cut { (root : ℕ) (shown : Shown) (directories : List (ℕ × Names)) (file : ℕ)
        (is_cut : ℕ → Bool) → IsGoodShown root shown directories
        → IsGoodShown root (with_blocks file (λ block. hidden_if (is_cut block)) shown) directories }
    ensures sized { (root : ℕ) (shown : Shown) (directories : List (ℕ × Names)) (file size : ℕ)
        (old : Inode) → IsGoodShown root shown directories → shown.inodes file ≡ Some old
        → old.kind ≡ File
        → ((block : ℕ) → size ≤ block * block_size → shown.blocks file block ≡ None)
        → IsGoodShown root (with_inode file (Some (record old { size = size })) shown) directories }
    ensures greater { (root : ℕ) (shown : Shown) (directories : List (ℕ × Names)) (file size : ℕ)
        (old : Inode) → IsGoodShown root shown directories → shown.inodes file ≡ Some old
        → old.kind ≡ File → old.size ≤ size
        → IsGoodShown root (with_inode file (Some (record old { size = size })) shown) directories }
{}
