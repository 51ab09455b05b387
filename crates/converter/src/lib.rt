#![tactic(auto)]
// Block feeding: `feed`, over samples, and `feed_parts`, over samples that lie in two parts. The contracts cite the definitions of `converter_spec`, with the statement of demand 3. What is under
// them is generic in what a buffer is made of, and the crates `host`, `host_lanes` and `host_queue` feed byte pairs by it.
mod block;
mod parts;
mod samples;

pub use block::{feed, feed_accepted};
pub use parts::{feed_accepted_parts, feed_parts};
