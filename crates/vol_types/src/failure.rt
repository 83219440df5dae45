/// A call to the outside (a device, a source, a sink) that did not succeed. The outside counts its failures, and says
/// no more of them.
#[derive(Clone, Copy, Debug, PartialEq, Eq)]
pub struct Failed;

/// How a session stopped writing: at this moment, as the devices count them, a write or a flush of this device had failed.
#[derive(Clone, Copy, PartialEq, Eq)]
pub struct Halt {
    pub dev: u8,
    pub tick: u64,
}
