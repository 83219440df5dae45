ghost use Rattle.std.specs.Prelude.{◌≡◌};
ghost use Rattle.key_meaning.specs.Forest.{Read, tree_of};
ghost use Rattle.key_steps.specs.Shown.{IsTreeOf, Shown, shown_in};
ghost use Rattle.plain_forest.specs.Forest.{Tree};
ghost use Rattle.vol_types.specs.KeyMaps.{KeyMap};
ghost use Rattle.vol_types.specs.declared.values.Sub.{Sub};

/// The tree of a subvolume is the one that what shows in its id means, and there is only one.
pub fn shown_keys_mean_trees()
    ensures tree { (keys : KeyMap) (read : Read) (sub : Sub)
        → IsTreeOf read sub (shown_in keys sub.id) (tree_of keys read sub) }
    ensures one { (read : Read) (sub : Sub) (shown : Shown) (one other : Tree)
        → IsTreeOf read sub shown one → IsTreeOf read sub shown other → one ≡ other }
{}
