//! Pointers of nodes, for the tests beside it.

ghost use Rattle.std.specs.Prelude.{◌≡◌, ◌≤◌, IfOk};
ghost use Rattle.tree_nodes.specs.Levels.{IsNodeOf};

use std::alloc::{AllocError, Global};
use vol_types::{NodePtr, Place, Places};

/// The place of each node, which no test looks at.
pub(crate) static NODE_PLACES: [Place; 1] = [Place { dev: 0, block: 512 }];

/// A pointer of a node of a level, at a block of the first device.
pub(crate) fn pointer(alloc: Global, birth: u64, level: u8) -> Result<NodePtr, AllocError>
    requires { level ≤ 7 }
    ensures node { IfOk result (IsNodeOf level) }
    ensures born { IfOk result (λ node. node.birth ≡ birth) }
{
    let places = Places::from_slice(alloc, &NODE_PLACES)?;
    Ok(NodePtr {
        birth,
        level,
        places,
    })
}
