ghost use Rattle.std.specs.Prelude.{◌≡◌, ◌*◌, ◌≤◌, ℕ, List, None, Option, Some};
ghost use Rattle.content_steps.specs.Shown.{with_blocks};
ghost use Rattle.forest_ops.specs.Trees.{with_bytes};
ghost use Rattle.key_meaning.specs.Blocks.{Block, block_in};
ghost use Rattle.key_meaning.specs.Forest.{Read, content_of, inode_in};
ghost use Rattle.key_steps.specs.Shown.{Shown, file_of, shown_in, with_inode};
ghost use Rattle.plain_forest.specs.Forest.{Tree};
ghost use Rattle.shown_changes.specs.Changes.{MeansGoodTree};
ghost use Rattle.vol_types.specs.KeyMaps.{KeyMap};
ghost use Rattle.vol_types.specs.Limits.{block_size};
ghost use Rattle.vol_types.specs.declared.values.FileKind.TheVariants.{File};
ghost use Rattle.vol_types.specs.declared.values.Inode.{Inode};
ghost use Rattle.vol_types.specs.declared.values.Sub.{Sub};

/// A file that has other blocks and a size at or behind which none of them shows, and so other bytes: the tree has these, and what
/// shows is good; so it is where the blocks are those of keys after which the file's content is the changed one.
pub fn good_trees_take_bytes()
    ensures shown { (read : Read) (sub : Sub) (shown : Shown) (tree : Tree) (file size : ℕ) (old : Inode)
        (given : ℕ → Option (Option Block)) (change : List ℕ → List ℕ)
        → MeansGoodTree read sub shown tree → shown.inodes file ≡ Some old → old.kind ≡ File
        → ((block : ℕ) → size ≤ block * block_size
        → (with_blocks file given shown).blocks file block ≡ None)
        → ((bytes : List ℕ) → file_of read shown file ≡ Some bytes → file_of read
        (with_inode file (Some (record old { size = size })) (with_blocks file given shown)) file
        ≡ Some (change bytes))
        → MeansGoodTree read sub
        (with_inode file (Some (record old { size = size })) (with_blocks file given shown))
        (with_bytes file change tree) }
    ensures content { (keys new : KeyMap) (read : Read) (sub : Sub) (tree : Tree) (file size : ℕ)
        (old : Inode) (given : ℕ → Option (Option Block)) (change : List ℕ → List ℕ)
        → MeansGoodTree read sub (shown_in keys sub.id) tree
        → inode_in keys sub.id file ≡ Some old → old.kind ≡ File
        → shown_in new sub.id ≡ with_blocks file given (shown_in keys sub.id)
        → ((block : ℕ) → size ≤ block * block_size → block_in new sub.id file block ≡ None)
        → content_of new read sub.id file size ≡ change
        (content_of keys read sub.id file old.size) → MeansGoodTree read sub
        (with_inode file (Some (record old { size = size }))
        (with_blocks file given (shown_in keys sub.id))) (with_bytes file change tree) }
{}
