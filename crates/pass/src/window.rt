// A window that is read from a buffer.
ghost use Rattle.std.specs.Prelude.{◌≡◌, ◌+◌, ◌≤◌, length};
ghost use Rattle.pass_spec.specs.Pass.{window_from};

use buffers::Entry;

/// The four samples from a place on.
// The count is not used: by its clauses the places have a bound.
pub fn window_at<E: Entry>(samples: &[E], at: usize) -> [i16; 4]
    requires inside { at + 4 ≤ length (E.samples samples.now) }
    ensures { result ≡ window_from (E.samples samples.now) at }
{
    let _count = E::count(samples);
    [
        E::sample(samples, at),
        E::sample(samples, at + 1),
        E::sample(samples, at + 2),
        E::sample(samples, at + 3),
    ]
}
