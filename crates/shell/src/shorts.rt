use std::alloc::Global;
use std::marker::Model;
use vol_types::{Listing, Short};

/// The answers of a session that there was no space, in order: the moment of each, and why.
#[derive(Drop)]
pub struct Shorts {
    pairs: Listing<(u64, Short)>,
}

impl Model for Shorts {
    ghost use Rattle.std.specs.Prelude.{List, ℕ};
    ghost use Rattle.vol_types.specs.declared.space.Short.{Short};

    ghost Value = { List (ℕ × Short) };

    ghost view = { λ shorts. shorts.pairs };
}

impl Shorts {
    ghost use Rattle.std.specs.Prelude.{◌≡◌, [], option_map, slice_get};

    /// None. It takes no memory.
    pub fn none(alloc: Global) -> Self
        ensures { result ≡ [] }
    {
        Shorts {
            pairs: Listing::new(alloc),
        }
    }

    /// The answer at this place, with its moment.
    pub fn get(&self, at: usize) -> Option<(u64, &Short)>
        ensures { option_map (λ pair. (pair.0, pair.1.now)) result ≡ slice_get self.now at }
    {
        match self.pairs.get(at) {
            Some(pair) => Some((pair.0, &pair.1)),
            None => None,
        }
    }
}
