// What a buffer of samples is made of.
ghost use Rattle.std.specs.Prelude.{◌≡◌, refl, List, ℕ, ◌*◌, ◌/◌, ◌^◌, ◌≤◌, ◌<◌, ℤ, pos, length, take, get_or};
ghost use Rattle.buffers_spec.specs.Layout.{Layout, Regular, Stored, as_samples, as_pairs, head_of, room};
ghost use Rattle.buffers_spec.specs.Bytes.{samples_of};

use crate::sample_bytes::{put_sample, sample_at};

/// An entry of a buffer of samples: a sample, or a byte, of which two are one sample, the low byte first.
pub trait Entry: Copy {
    /// Room for a window and the four samples behind it.
    type Joined: Copy;

    ghost layout: { Layout Self };

    ghost samples: { List Self → List ℤ };

    ghost listed: { Self.Joined → List Self };

    /// How many samples a buffer has.
    fn count(buffer: &[Self]) -> usize
        ensures samples { result ≡ length (samples buffer.now) }
        ensures room { result ≡ room layout buffer.now }
        ensures fits { result < 2 ^ 63 };

    /// How many of a buffer's first four samples there are.
    fn head(buffer: &[Self]) -> usize
        ensures { result ≡ head_of (samples buffer.now) };

    /// Where sample `i` of a buffer begins, or would begin.
    fn place(buffer: &[Self], i: usize) -> usize
        requires { i ≤ room layout buffer.now }
        ensures place { result ≡ i * layout.width }
        ensures fits { room layout buffer.now < 2 ^ 63 };

    /// Sample `i` of a buffer.
    fn sample(buffer: &[Self], i: usize) -> i16
        requires { i < length (samples buffer.now) }
        ensures { result ≡ get_or (samples buffer.now) i (pos 0) };

    /// Writes sample `i` of a buffer.
    fn put(buffer: &mut [Self], i: usize, x: i16)
        requires { i < room layout buffer.old }
        ensures { Stored layout buffer.old i x buffer.new };

    /// Eight samples as they lie in a buffer.
    fn lay(xs: [i16; 8]) -> Self::Joined
        ensures { samples (listed result) ≡ xs };

    /// The first `n` of them.
    fn front(both: &Self::Joined, n: usize) -> &[Self]
        requires { n ≤ 8 }
        ensures part { samples result.now ≡ take n (samples (listed both.now)) }
        ensures long { length (samples result.now) ≡ n };

    ghost regular: { Regular layout };
}

impl Entry for i16 {
    ghost use Rattle.std.proofs.Common.{rules};

    type Joined = [i16; 8];

    ghost layout = { as_samples };

    ghost samples = { λ xs. xs };

    ghost listed = { λ xs. xs };

    ghost regular = { record { some = Prim.search rules; each = λ x. refl } };

    fn count(buffer: &[i16]) -> usize {
        buffer.len()
    }

    fn head(buffer: &[i16]) -> usize {
        buffer.len().min(4)
    }

    fn place(_buffer: &[i16], i: usize) -> usize {
        i
    }

    fn sample(buffer: &[i16], i: usize) -> i16 {
        buffer[i]
    }

    fn put(buffer: &mut [i16], i: usize, x: i16) {
        buffer[i] = x;
    }

    fn lay(xs: [i16; 8]) -> [i16; 8] {
        xs
    }

    fn front(both: &[i16; 8], n: usize) -> &[i16] {
        &both[..n]
    }
}

impl Entry for u8 {
    ghost use Rattle.std.proofs.Common.{rules};
    ghost use Rattle.buffers_spec.proofs.Samples.{pair-long};

    type Joined = [u8; 16];

    ghost layout = { as_pairs };

    ghost samples = { samples_of };

    ghost listed = { λ bytes. bytes };

    ghost regular = { record { some = Prim.search rules; each = pair-long } };

    fn count(buffer: &[u8]) -> usize {
        buffer.len() / 2
    }

    // By bytes: LLVM then counts in bytes alone, where it knows that they are even.
    fn head(buffer: &[u8]) -> usize {
        if buffer.len() < 8 {
            buffer.len() / 2
        } else {
            4
        }
    }

    fn place(_buffer: &[u8], i: usize) -> usize {
        i * 2
    }

    fn sample(buffer: &[u8], i: usize) -> i16 {
        sample_at(buffer, i)
    }

    fn put(buffer: &mut [u8], i: usize, x: i16) {
        put_sample(buffer, i, x);
    }

    fn lay(xs: [i16; 8]) -> [u8; 16] {
        let [a, b] = xs[0].to_le_bytes();
        let [c, d] = xs[1].to_le_bytes();
        let [e, f] = xs[2].to_le_bytes();
        let [g, h] = xs[3].to_le_bytes();
        let [i, j] = xs[4].to_le_bytes();
        let [k, l] = xs[5].to_le_bytes();
        let [m, n] = xs[6].to_le_bytes();
        let [o, p] = xs[7].to_le_bytes();
        [a, b, c, d, e, f, g, h, i, j, k, l, m, n, o, p]
    }

    fn front(both: &[u8; 16], n: usize) -> &[u8] {
        &both[..n * 2]
    }
}
