// The value of a kernel as a polynomial in u over the newest four samples.
ghost use Rattle.std.specs.Prelude.{◌≡◌, ℕ, ◌*◌, ◌^◌, ◌<◌, pos, ◌*ℤ◌};
ghost use Rattle.integers.specs.Within.{Within};
ghost use Rattle.kernels_spec.specs.Kernel.{places, four};
ghost use Rattle.kernels_spec.specs.Value.{column, polynomial, window_at, filter_fraction};
ghost use Rattle.kernels.specs.Scale.{kernel_named, weight};

use crate::kernel::Kernel;

/// v0 + v1 u + v2 u² + v3 u³ at u = m/2^14, and how large each number is at the most.
#[derive(Clone, Copy)]
pub struct Polynomial {
    v0: i64,
    v1: i64,
    v2: i64,
    v3: i64,
    m: i64,
    ghost v0_small: { Within (weight 0 * 2 ^ 15) v0 },
    ghost v1_small: { Within (weight 1 * 2 ^ 15) v1 },
    ghost v2_small: { Within (weight 2 * 2 ^ 15) v2 },
    ghost v3_small: { Within (weight 3 * 2 ^ 15) v3 },
    ghost m_small: { Within (2 ^ 14) m },
}

// The coefficients of one power times the samples.
fn column(kernel: Kernel, power: usize, x: [i16; 4]) -> i64
    requires { power < 4 }
    ensures value { result ≡ column ((kernel_named kernel).coefficient power) (places x) }
    ensures small { Within (weight power * 2 ^ 15) result }
{
    let [cm, c0, c1, c2] = kernel.row(power);
    let [xm, x0, x1, x2] = x;
    cm * xm as i64 + c0 * x0 as i64 + c1 * x1 as i64 + c2 * x2 as i64
}

impl Polynomial {
    /// A kernel's own at a register over the newest four samples, oldest first, times the denominator.
    #[inline(always)]
    pub fn of(kernel: Kernel, register: u32, window: [i16; 4]) -> Self
        ensures columns { (power : ℕ) → power < 4 → four result.v0 result.v1 result.v2 result.v3 power ≡ column ((kernel_named kernel).coefficient power) (window_at (kernel_named kernel) window) }
        ensures place { result.m ≡ filter_fraction (kernel_named kernel) register }
    {
        let x = kernel.around(window);
        Self {
            v0: column(kernel, 0, x),
            v1: column(kernel, 1, x),
            v2: column(kernel, 2, x),
            v3: column(kernel, 3, x),
            m: kernel.fraction(register),
        }
    }

    // The three degrees are no plainer as one loop over a row, which would carry its scale by power; and the lower ones leave out a power of two: decision 19.

    /// v0 + v1 u, times 2^14.
    pub fn linear(self) -> i64
        ensures { result *ℤ pos (2 ^ 28) ≡ polynomial (four self.v0 self.v1 (pos 0) (pos 0)) self.m (pos (2 ^ 14)) }
    {
        self.v1 * self.m + self.v0 * 0x4000
    }

    /// v0 + v1 u + v2 u², times 2^28.
    pub fn quadratic(self) -> i64
        ensures { result *ℤ pos (2 ^ 14) ≡ polynomial (four self.v0 self.v1 self.v2 (pos 0)) self.m (pos (2 ^ 14)) }
    {
        let a = self.v2 * self.m + self.v1 * 0x4000;
        a * self.m + self.v0 * 0x1000_0000
    }

    /// v0 + v1 u + v2 u² + v3 u³, times 2^42.
    pub fn cubic(self) -> i64
        ensures { result ≡ polynomial (four self.v0 self.v1 self.v2 self.v3) self.m (pos (2 ^ 14)) }
    {
        let a = self.v3 * self.m + self.v2 * 0x4000;
        let b = a * self.m + self.v1 * 0x1000_0000;
        b * self.m + self.v0 * 0x400_0000_0000
    }
}
