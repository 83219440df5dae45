/// The point right before a transaction's commit, after its last look and its last block.
pub const BEFORE_COMMIT: u8 = 1;

/// Where a test may hold a client. It is called outside the turn, so other clients go on meanwhile.
///
/// The point 1, `BEFORE_COMMIT`, comes right before a transaction's commit, after its last look. A transaction that
/// began again comes to it again.
pub trait Gate {
    /// The client has come to the point, and goes on when this returns.
    fn at(&self, client: u8, point: u8);
}

/// A gate that holds nobody.
#[derive(Clone, Copy, Default)]
pub struct NoGate;

impl Gate for NoGate {
    fn at(&self, _client: u8, _point: u8) {}
}
