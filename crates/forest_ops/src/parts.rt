ghost use Rattle.std.specs.Prelude.{◌≡◌, ◌≤◌, All, OnOk, OnErr};
ghost use Rattle.vol_digest.specs.Digests.{slot_of};
ghost use Rattle.forest_ops.specs.Steps.{numbers_per_client};
ghost use Rattle.forest_ops.specs.Parts.{bare_forest, with_tree};

use crate::Forest;
use crate::subvolume::Subvolume;
use crate::subvolumes::Subvolumes;
use std::alloc::{AllocError, Global};
use vol_types::Bytes;

impl Forest {
    /// A forest without subvolumes, where each client's numbers go on from these and so many snapshot ids are left. It takes
    /// no memory.
    pub fn bare(alloc: Global, next: [u64; 16], ids_left: u64) -> Self
        requires { All (λ number. number ≤ numbers_per_client) next }
        ensures { result ≡ bare_forest next ids_left }
    {
        Forest {
            alloc,
            subvolumes: Subvolumes::new(alloc),
            next,
            ids_left,
        }
    }

    /// Inserts a subvolume with its tree, unless one has the name, whose slot this is. An `Err` changes nothing.
    pub fn insert_subvolume(
        &mut self,
        name: &Bytes,
        slot: u64,
        tree: Subvolume,
    ) -> Result<(), AllocError>
        requires { slot ≡ slot_of name.now }
        ensures ok { OnOk result (self.new ≡ with_tree name.now tree self.old) }
        ensures err { OnErr result (self.new ≡ self.old) }
    {
        if self.subvolumes.tree(name).is_some() {
            return Ok(());
        }
        self.subvolumes.insert(self.alloc, name, slot, tree)
    }
}
