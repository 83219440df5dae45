ghost use Rattle.std.specs.Prelude.{◌≡◌, ◌+◌, ◌-◌, ◌/◌, ◌<◌, ◌≤◌, ◌++◌, ℕ, All, List, Some, is_some, length, max, option_and_then};
ghost use Rattle.extent_ops.specs.Content.{AreFresh, IsContent, given_by};
ghost use Rattle.file_plan.specs.Content.{HasFile, MayReach, written_over};
ghost use Rattle.file_plan.specs.Ends.{IsEndWritten, end_bytes, has_end};
ghost use Rattle.file_plan.specs.Bounds.{most_updates};
ghost use Rattle.file_plan.specs.Runs.{IsRun, IsWritten, bytes_of};
ghost use Rattle.file_plan.specs.Sizes.{blocks_up_to};
ghost use Rattle.file_plan.specs.declared.change.Change.TheVariants.{Cut, Put};
ghost use Rattle.file_plan.specs.Writes.{GiveAfter, written};
ghost use Rattle.key_meaning.specs.Blocks.{block_in};
ghost use Rattle.key_meaning.specs.Checks.{IsLiveLeaf, IsSound};
ghost use Rattle.key_meaning.specs.Forest.{Read, content_of, file_in, inode_in};
ghost use Rattle.key_meaning.specs.Tidy.{IsTidy};
ghost use Rattle.vol_types.specs.KeyMaps.{KeyMap};
ghost use Rattle.file_plan.specs.declared.block_io.BlockIo.{BlockIo};
ghost use Rattle.vol_types.specs.Layouts.{IsLayout};
ghost use Rattle.vol_types.specs.Limits.{block_size};
ghost use Rattle.vol_types.specs.Widths.{PosFits};
ghost use Rattle.vol_types.specs.declared.keys.Key.{Key};
ghost use Rattle.vol_types.specs.declared.layout.Layout.{Layout};
ghost use Rattle.vol_types.specs.declared.pointers.Place.{Place};
ghost use Rattle.vol_types.specs.declared.values.FileKind.TheVariants.{File};
ghost use Rattle.vol_types.specs.declared.values.Inode.{Inode};

/// What is said of content holds of each inode of a live leaf, with its size, where the key map is sound and tidy and its positions have
/// their widths.
pub fn sound_files_have_content()
    ensures { (keys : KeyMap) (nodes : List Place) (layout : Layout) (id number : ℕ) (inode : Inode)
        → IsSound keys nodes layout → IsLayout layout → IsTidy keys
        → All (λ entry. PosFits entry.0) keys.extents → IsLiveLeaf keys id
        → inode_in keys id number ≡ Some inode → HasFile keys id number inode.size }
{}

/// Where the inode of a file is set to the size that a change of its content makes, and its blocks stay as the change left them, the
/// file has the bytes that the change gave it.
pub fn files_take_content()
    ensures { (changed new : KeyMap) (read : Read) (id number : ℕ) (inode : Inode) (bytes : List ℕ)
        → inode_in new id number ≡ Some inode → inode.kind ≡ File
        → ((block : ℕ) → block_in new id number block ≡ block_in changed id number block)
        → content_of changed read id number inode.size ≡ bytes
        → file_in new read id number ≡ Some bytes }
{}

/// Where extents give each of their blocks the bytes that it has after bytes were written at an offset, and have each block over
/// which these lie, a file in which they are put has the bytes that were written, and no others have changed: zeros lie between
/// its old end and them.
pub fn writes_are_put()
    ensures { (keys : KeyMap) (read : Read) (id number size offset : ℕ) (bytes : List ℕ)
        (extents : List Key)
        → GiveAfter read extents offset bytes (content_of keys read id number size)
        → written_over read extents (content_of keys read id number size)
        (max size (offset + length bytes))
        ≡ written offset bytes (content_of keys read id number size) }
{}

/// A run of extents may be put: they are fresh ones, which end where it does, and in range.
pub fn runs_are_fresh()
    ensures fresh { (number id first end : ℕ) (keys : List Key) → IsRun number id first end keys
        → AreFresh number id first keys }
    ensures within { (number id first end : ℕ) (keys : List Key) → IsRun number id first end keys
        → All (λ key. key.pos.offset ≤ end) keys }
    ensures content { (number id first end : ℕ) (keys : List Key) → IsRun number id first end keys
        → All (λ key. IsContent key.value) keys }
{}

/// What `write_end` gives may be put in front of extents that begin behind the file's old end: then the file may be made as long
/// as they reach, and it has the bytes that the others alone give it.
pub fn ends_go_first()
    ensures fresh { (id number size first : ℕ) (end extents : List Key) (before after : BlockIo)
        → IsEndWritten number id size end before after → size / block_size < first
        → AreFresh number id first extents
        → AreFresh number id (size / block_size) (end ++ extents) }
    ensures reach { (keys : KeyMap) (id number size new_size : ℕ) (end extents : List Key)
        → is_some (given_by end (size / block_size)) ≡ has_end keys id number size
        → MayReach keys id number size (end ++ extents) new_size }
    ensures bytes { (keys : KeyMap) (read : Read) (id number size first new_size : ℕ)
        (end extents : List Key) (before after : BlockIo)
        → IsEndWritten number id size end before after
        → is_some (given_by end (size / block_size)) ≡ has_end keys id number size
        → option_and_then (bytes_of read) (given_by end (size / block_size))
        ≡ end_bytes keys read id number size → size / block_size < first
        → AreFresh number id first extents
        → written_over read (end ++ extents) (content_of keys read id number size) new_size
        ≡ written_over read extents (content_of keys read id number size) new_size }
{}

/// A write of at most 65,536 bytes lies over at most 17 blocks. To put these makes at most 21 updates, and 24 where the block of
/// the file's old end is put in front of them. One truncation makes at most 258.
pub fn changes_are_few()
    ensures over { (offset count : ℕ) → 0 < count → count ≤ 65536
        → blocks_up_to (offset + count) - offset / block_size ≤ 17 }
    ensures put { (number id size first : ℕ) (blocks : List (List ℕ)) (extents : List Key)
        (old new : BlockIo) → IsWritten number id first blocks extents old new → length blocks ≤ 17
        → most_updates size (Put first extents) ≤ 21 }
    ensures with_end { (number id size first : ℕ) (end : List Key) (before after : BlockIo)
        (blocks : List (List ℕ)) (extents : List Key) (old new : BlockIo)
        → IsEndWritten number id size end before after
        → IsWritten number id first blocks extents old new → length blocks ≤ 17
        → most_updates size (Put (size / block_size) (end ++ extents)) ≤ 24 }
    ensures cut { (size new : ℕ) → most_updates size (Cut new) ≤ 258 }
{}
