ghost use Rattle.std.specs.Prelude.{◌≡◌, ◌<◌, ◌+◌, ℕ, true, length, List, map, slice_index, Ok, Err, Some, None, IsSome};
ghost use Rattle.vol_types.specs.declared.layout.Layout.{Layout as ALayout};
ghost use Rattle.dev_model.specs.Devices.{IsPlace};
ghost use Rattle.dev_model.specs.Disk.{Image, block_at, blocks_of};
ghost use Rattle.geometry.specs.declared.fault.SuperFault.TheVariants.{NoSuper};
ghost use Rattle.geometry.specs.LayoutFacts.{HasPlaces};
ghost use Rattle.geometry.specs.Layouts.{is_layout_of};
ghost use Rattle.geometry.specs.Sessions.{session_at, session_in, session_place};
ghost use Rattle.geometry.specs.Superblocks.{counting, layout_in, super_copy};

/// A layout that passes the test on devices of these sizes has its places there.
pub fn layouts_have_places()
    ensures places { (sizes : List ℕ) (layout : ALayout) → is_layout_of sizes layout ≡ true
        → HasPlaces sizes layout }
    ensures block { (sizes : List ℕ) (layout : ALayout) → is_layout_of sizes layout ≡ true
        → (dev block : ℕ) → dev < length sizes → block < slice_index layout.blocks dev
        → IsPlace sizes dev block }
    ensures area { (sizes : List ℕ) (layout : ALayout) → is_layout_of sizes layout ≡ true
        → (dev block : ℕ) → dev < length sizes → block < 16 + layout.journal
        → IsPlace sizes dev block }
    ensures journal { (sizes : List ℕ) (layout : ALayout) (dev place : ℕ)
        → is_layout_of sizes layout ≡ true → dev < layout.metadata_replicas
        → place < layout.journal → IsPlace sizes dev (16 + place) }
{}

/// The layout that an image holds stays while its sizes and blocks 0 and 8 do, and fits its devices.
pub fn layouts_stay()
    ensures same_layout { (one other : Image) → map (λ blocks. length blocks) one ≡ map
        (λ blocks. length blocks) other → ((dev : ℕ) → counting (blocks_of one dev) ≡ counting
        (blocks_of other dev)) → layout_in one ≡ layout_in other }
    ensures same_counting { (one other : Image) (dev : ℕ) → block_at one dev 0 ≡ block_at other dev
        0 → block_at one dev 8 ≡ block_at other dev 8 → counting (blocks_of one dev) ≡ counting
        (blocks_of other dev) }
    ensures fits { (image : Image) (layout : ALayout) → layout_in image ≡ Ok layout
        → is_layout_of (map (λ blocks. length blocks) image) layout ≡ true }
{}

/// The copies of a layout are read as this layout, and a device without a copy leaves none.
pub fn written_layouts_are_read()
    ensures copies { (layout : ALayout) (image : Image)
        → is_layout_of (map (λ blocks. length blocks) image) layout ≡ true
        → ((dev : ℕ) → dev < length image → (block : ℕ) × (sequence : ℕ)
        × (counting (blocks_of image dev) ≡ Some (super_copy layout dev block sequence)))
        → layout_in image ≡ Ok layout }
    ensures no_super { (image : Image) (dev : ℕ) → dev < length image
        → counting (blocks_of image dev) ≡ None → layout_in image ≡ Err NoSuper }
{}

/// A volume names a session while the blocks of its greatest one stay, and where a metadata device names one.
pub fn sessions_stay()
    ensures remains { (layout : ALayout) (before image : Image) (session : ℕ)
        → session_in layout before ≡ Some session
        → ((dev : ℕ) → dev < layout.metadata_replicas → block_at image dev (session_place session)
        ≡ block_at before dev (session_place session)) → IsSome (session_in layout image) }
    ensures is_there { (layout : ALayout) (image : Image) (dev session : ℕ)
        → dev < layout.metadata_replicas → session_at layout.id image dev (session_place session)
        ≡ Some session → IsSome (session_in layout image) }
{}
