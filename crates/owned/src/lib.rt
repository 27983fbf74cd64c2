// Every call on a memory of the whole box that is known to be valid: for callers that own it since power-on. Same promises as the public calls.
#![tactic(auto)]

pub use box_channels::{clear, disconnect, get, set};
pub use box_connecting::connect;
pub use box_deciding::decide;
pub use box_frames::frame;
pub use box_lines::close;
pub use box_links::{link_end, link_open, link_receive, link_send};
pub use box_orders::{start_filter, start_flow_filter, start_periodic, stop_filter, stop_periodic};
pub use box_setups::{load, save};
pub use box_times::advance;
pub use box_traffic::{read, sent, take, write};
