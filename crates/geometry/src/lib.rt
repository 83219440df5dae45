//! The layout of a volume on its devices: the superblocks that name it, the blocks that name its sessions, and blocks that
//! are mirrored on several devices.
#![tactic(auto)]

mod copies;
mod fault;
mod judging;
mod laws;
mod layouts;
mod mirrors;
mod naming;
mod reading;
mod sessions;
mod superblocks;

pub use copies::{SuperCopy, read_counting};
pub use fault::{DiskFault, SuperFault};
pub use laws::{layouts_have_places, layouts_stay, sessions_stay, written_layouts_are_read};
pub use layouts::{have_room, is_layout_of};
pub use mirrors::{flush_device, flush_devices, settle_mirrors, write_device, write_mirrors};
pub use reading::read_block;
pub use sessions::{
    read_session, sealed_session, session_bytes, session_named, session_place, write_session,
};
pub use superblocks::{read_super, write_super};
