ghost use Rattle.std.specs.Prelude.{◌≡◌, ℕ};
ghost use Rattle.vol_types.specs.KeyMaps.{KeyMap};
ghost use Rattle.key_meaning.specs.Forest.{byte_in};
ghost use Rattle.key_meaning.specs.Tidy.{IsTidy};
ghost use Rattle.forest_view.specs.Meant.{IsMeant, no_blocks};

/// A forest can hold the counters of a tidy key map.
pub fn tidy_keys_are_meant()
    ensures { (keys : KeyMap) → IsTidy keys → IsMeant keys }
{}

/// Where no block is read, each byte of a file is zero.
pub fn unread_blocks_are_zeros()
    ensures { (keys : KeyMap) (id file index : ℕ) → byte_in keys no_blocks id file index ≡ 0 }
{}
