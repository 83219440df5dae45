use vol_types::Listing;

/// An acknowledgement: at this moment, as the devices count them, so many commits of the session were said to be durable.
#[derive(Clone, Copy, PartialEq, Eq)]
pub struct Ack {
    pub moment: u64,
    pub commits: u64,
}

/// The acknowledgements of a session, in order.
pub type Acks = Listing<Ack>;
