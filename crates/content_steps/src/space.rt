ghost use Rattle.std.specs.Prelude.{ℕ, All, List, Option};
ghost use Rattle.content_steps.specs.Steps.{StepsButSpace};
ghost use Rattle.key_meaning.specs.Checks.{IsSpaceCounted};
ghost use Rattle.key_steps.specs.Kept.{IsKept};
ghost use Rattle.key_steps.specs.Shown.{Shown};
ghost use Rattle.key_steps.specs.Steps.{Steps};
ghost use Rattle.key_triggers.specs.Expanding.{expanded};
ghost use Rattle.key_triggers.specs.Follows.{Follows, IsExpanded, IsNoSpaceUpdate, MayFollow};
ghost use Rattle.vol_types.specs.KeyMaps.{KeyMap, with_updates};
ghost use Rattle.vol_types.specs.Standing.{IsUpdate};
ghost use Rattle.vol_types.specs.declared.keys.Update.{Update};
ghost use Rattle.vol_types.specs.declared.layout.Layout.{Layout};
ghost use Rattle.vol_types.specs.declared.pointers.Place.{Place};

use key_triggers::expanded_keys_follow;

/// Updates that are steps but for the keys on space may be expanded, where space is counted before them; and once they are, they are
/// steps, to the same that shows: the present generations of pointers change no block.
pub fn space_follows_in_steps()
    ensures may { (keys : KeyMap) (updates : List Update) (nodes : List Place) (layout : Layout)
        (id : ℕ) (shown : Shown) (counters : ℕ → Option ℕ) → IsKept keys nodes layout
        → IsSpaceCounted keys → All IsNoSpaceUpdate updates
        → StepsButSpace keys (with_updates updates keys) nodes layout id shown counters
        → MayFollow keys updates nodes layout }
    ensures steps { (keys : KeyMap) (updates all : List Update) (nodes : List Place) (layout : Layout)
        (id : ℕ) (shown : Shown) (counters : ℕ → Option ℕ) → IsKept keys nodes layout
        → All IsNoSpaceUpdate updates → All IsUpdate updates → All IsUpdate all
        → IsExpanded keys updates all
        → StepsButSpace keys (with_updates updates keys) nodes layout id shown counters
        → Follows keys (with_updates all keys) updates nodes layout
        → Steps keys (with_updates all keys) nodes layout id shown counters }
    ensures expanded { (keys : KeyMap) (updates : List Update) (nodes : List Place)
        (layout : Layout) (id : ℕ) (shown : Shown) (counters : ℕ → Option ℕ)
        → IsKept keys nodes layout → IsSpaceCounted keys → All IsNoSpaceUpdate updates
        → All IsUpdate updates
        → StepsButSpace keys (with_updates updates keys) nodes layout id shown counters
        → Steps keys (with_updates (expanded keys updates) keys) nodes layout id shown counters }
{
    expanded_keys_follow();
}
