ghost use Rattle.std.specs.Arc.{arc_value};
ghost use Rattle.std.specs.Prelude.{◌≡◌, [], Some, None, if◌then◌else◌};
ghost use Rattle.key_view.specs.Plain.{key_map_of};
ghost use Rattle.vol_types.specs.KeyMaps.{GivesLooks};

use crate::{Hold, PlainKeys, View};
use snap_tree::SnapTree;
use std::alloc::Global;
use std::sync::Arc;
use vol_types::{Duplicate, Keys, Look, Looks, Query};

/// A view of a key map in memory. It waits for nothing, and fails only where it is out of memory.
#[derive(Drop)]
pub struct PlainView {
    alloc: Global,
    keys: PlainKeys,
    tree: Arc<SnapTree>,
    has_told: bool,
    looks: Looks,
    ghost gives: { GivesLooks (key_map_of keys) looks },
}

impl PlainView {
    /// A view of these keys, with a tree of ids. It has made no look.
    pub fn new(alloc: Global, keys: PlainKeys, tree: Arc<SnapTree>) -> PlainView
        ensures keys { result.keys ≡ keys }
        ensures looks { result.looks ≡ [] }
    {
        PlainView {
            alloc,
            keys,
            tree,
            has_told: false,
            looks: Looks::new(alloc),
        }
    }

    /// The keys. They give all looks that the view has made.
    pub fn keys(&self) -> &PlainKeys
        ensures keys { result.now ≡ self.now.keys }
        ensures gives { GivesLooks (key_map_of self.now.keys) self.now.looks }
    {
        &self.keys
    }
}

impl View for PlainView {
    ghost use Rattle.key_view.specs.declared.hold.Hold.TheVariants.{NoMemory};

    ghost made = { λ view. view.looks };

    ghost told = { λ view. if view.has_told then Some (arc_value view.tree) else None };

    ghost held = { λ _ hold. hold ≡ NoMemory };

    fn look(&mut self, query: &Query) -> Result<Keys, Hold> {
        let answer = self.keys.answer(self.alloc, query)?;
        let copy = answer.copy(self.alloc)?;
        self.looks.push(Look {
            query: *query,
            answer: copy,
        })?;
        Ok(answer)
    }

    fn looks(&self) -> &Looks {
        &self.looks
    }

    fn tree(&mut self) -> Result<Arc<SnapTree>, Hold> {
        let tree = Arc::try_clone(&self.tree)?;
        self.has_told = true;
        Ok(tree)
    }
}
