// The 28 public calls of the box, on any bytes that are lent as its memory: each looks at the memory first, then does the call. The look itself
// is `valid`.
#![tactic(auto)]

pub use box_places::BOX as MEMORY;
pub use box_validity::valid;
pub use decision::Decision;
pub use device_channels::{clear, connect, disconnect, get, last_error, set};
pub use device_deciding::decide;
pub use device_lines::{advance, close, frame, power_on};
pub use device_links::{link_end, link_open, link_receive, link_send};
pub use device_lists::{Pair, get_list, set_list};
pub use device_orders::{
    start_filter, start_flow_filter, start_periodic, stop_filter, stop_periodic,
};
pub use device_setups::{load, save};
pub use device_traffic::{read, sent, take, write};
pub use link_asking::Asking;
