#![tactic(auto)]
// The inside of the C library's lane calls, above the crate `host`. Its functions are for the crate `resampler`, which makes them calls for C, and for no other.
mod feeding;
mod lane_image;
mod starting;

pub use feeding::feed_lane_buffers;
pub use starting::start_lanes_by;
