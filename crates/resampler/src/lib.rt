#![tactic(auto)]
// The C library: host calls over byte buffers. tools/build makes the archive, include/resampler.h declares the calls for C, and the contracts cite the definitions of `host_spec`.
mod calls;

pub use calls::{
    resampler_draw, resampler_feed, resampler_feed_lanes, resampler_push, resampler_read_data,
    resampler_read_start, resampler_retune_rates, resampler_retune_ratio, resampler_retune_word,
    resampler_start_lanes_rates, resampler_start_lanes_ratio, resampler_start_lanes_word,
    resampler_start_rates, resampler_start_ratio, resampler_start_word, resampler_write_data,
    resampler_write_start,
};
