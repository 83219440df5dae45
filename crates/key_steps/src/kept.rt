ghost use Rattle.std.specs.Prelude.{◌≡◌, ◌<◌, ◌^◌, ℕ, List, Some, All};
ghost use Rattle.key_meaning.specs.Checks.{IsLiveLeaf, IsSound, IsSpaceCounted};
ghost use Rattle.key_meaning.specs.Forest.{all_subs, kind_in};
ghost use Rattle.key_meaning.specs.Tidy.{IsDrawn, IsTidy};
ghost use Rattle.key_steps.specs.Kept.{IsKept, IsLeafGood};
ghost use Rattle.key_steps.specs.Shown.{AreNamesApart, shown_in};
ghost use Rattle.vol_types.specs.KeyMaps.{IsKeyMap, KeyMap};
ghost use Rattle.vol_types.specs.declared.layout.Layout.{Layout};
ghost use Rattle.vol_types.specs.declared.pointers.Place.{Place};
ghost use Rattle.vol_types.specs.declared.values.FileKind.{FileKind};

/// Keys are sound and tidy exactly where they are kept, their space is counted, and what each subvolume shows is good.
pub fn sound_keys_are_kept_and_good()
    ensures apart { (keys : KeyMap) (nodes : List Place) (layout : Layout) → IsKeyMap keys
        → IsSound keys nodes layout → IsTidy keys
        → IsKept keys nodes layout × IsSpaceCounted keys × All (IsLeafGood keys) (all_subs keys) }
    ensures joined { (keys : KeyMap) (nodes : List Place) (layout : Layout)
        → IsKept keys nodes layout → IsSpaceCounted keys → All (IsLeafGood keys) (all_subs keys)
        → IsSound keys nodes layout × IsTidy keys }
{}

/// Where keys are kept, the names that an id shows under one slot differ.
pub fn kept_names_are_apart()
    ensures { (keys : KeyMap) (nodes : List Place) (layout : Layout) → IsKept keys nodes layout
        → (id : ℕ) → AreNamesApart (shown_in keys id) }
{}

/// Where keys are kept, the number of an inode that shows is drawn, and the id of a live leaf has 32 bits.
pub fn shown_numbers_are_drawn()
    ensures drawn { (keys : KeyMap) (nodes : List Place) (layout : Layout) (id number : ℕ)
        (kind : FileKind) → IsKept keys nodes layout → kind_in keys id number ≡ Some kind
        → IsDrawn keys number }
    ensures small { (keys : KeyMap) (nodes : List Place) (layout : Layout) (id : ℕ)
        → IsKept keys nodes layout → IsLiveLeaf keys id → id < 2 ^ 32 }
{}
