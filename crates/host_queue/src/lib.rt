#![tactic(auto)]
// The inside of the C library: a queue of byte pairs in a host's buffer. `resampler` hands its two calls on to these.
mod drawing;
mod marks;
mod pushing;

pub use drawing::draw_buffers;
pub use pushing::push_buffers;
