ghost use Rattle.std.specs.Arc.{arc_value};
ghost use Rattle.std.specs.Prelude.{◌≡◌, ◌++◌, ◌∷◌, [], List, Option, Some, IfOk, IfErr, IfSome, OnErr};
ghost use Rattle.key_view.specs.declared.hold.Hold.{Hold as AHold};
ghost use Rattle.snap_tree.specs.Snaps.{Snaps};
ghost use Rattle.vol_types.specs.declared.queries.Look.{Look as ALook};

use crate::Hold;
use snap_tree::SnapTree;
use std::sync::Arc;
use vol_types::{Keys, Looks, Query};

/// What a plan sees of a key map. It asks for keys, one look after the other, and for the tree of snapshot ids.
pub trait View {
    /// The looks that it has made, in their order.
    ghost made: { Self → List ALook };

    /// The snapshot ids that it has told, once it was asked for them.
    ghost told: { Self → Option Snaps };

    /// It has just answered so, in place of what it was asked for.
    ghost held: { Self → AHold → Type 0 };

    /// The keys that the query asks for. An `Err` makes no look.
    fn look(&mut self, query: &Query) -> Result<Keys, Hold>
        ensures ok { IfOk result (λ answer.
            made self.new ≡ made self.old ++ record { query = query.now; answer = answer } ∷ []) }
        ensures err { OnErr result (made self.new ≡ made self.old) }
        ensures ids { told self.new ≡ told self.old }
        ensures cause { IfErr result (held self.new) };

    /// The looks that it has made.
    fn looks(&self) -> &Looks
        ensures { result.now ≡ made self.now };

    /// The tree of all snapshot ids, which is shared and not copied. This is a look of its own kind, and is no member of
    /// `looks`. Once it was told, the tree stays the same.
    fn tree(&mut self) -> Result<Arc<SnapTree>, Hold>
        ensures ok { IfOk result (λ tree. told self.new ≡ Some (arc_value tree)) }
        ensures same { IfSome (told self.old) (λ tree. told self.new ≡ Some tree) }
        ensures err { OnErr result (told self.new ≡ told self.old) }
        ensures looks { made self.new ≡ made self.old }
        ensures cause { IfErr result (held self.new) };
}
