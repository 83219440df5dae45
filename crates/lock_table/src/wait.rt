use crate::NodeName;

/// What an actor waits for: a node, by the name by which it was held, and who was in the way.
#[derive(Clone, Copy, PartialEq, Eq)]
pub struct Waiting {
    pub node: NodeName,
    pub holder: u8,
}
