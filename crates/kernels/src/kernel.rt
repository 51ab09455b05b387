// The four kernels inside the library, and what of each is read by its number.
ghost use Rattle.std.specs.Prelude.{◌≡◌, ℕ, ◌<◌, ◌^◌, pos};
ghost use Rattle.kernels_spec.specs.Kernel.{places, kernel_of};
ghost use Rattle.kernels_spec.specs.Value.{unit, window_at, filter_fraction};
ghost use Rattle.kernels.specs.Scale.{kernel_named};

// By kernel, over the denominators 1, 2, 2, 6; by power of u; and by sample: xm, x0, x1, x2.
const COEFFICIENTS: [[[i64; 4]; 4]; 4] = [
    [[0, 1, 0, 0], [0, -1, 1, 0], [0, 0, 0, 0], [0, 0, 0, 0]],
    [[0, 2, 0, 0], [-1, 0, 1, 0], [1, -2, 1, 0], [0, 0, 0, 0]],
    [[0, 2, 0, 0], [-1, -1, 3, -1], [1, -1, -1, 1], [0, 0, 0, 0]],
    [[0, 6, 0, 0], [-2, -3, 6, -1], [3, -6, 3, 0], [-1, 3, -3, 1]],
];

/// One of the four kernels. The public functions take a number, as states have it, in which one above 3 is a value (`is_state`).
#[derive(Clone, Copy, Debug, PartialEq, Eq)]
pub enum Kernel {
    Linear,
    ThreePoint,
    Parabolic,
    Cubic,
}

impl Kernel {
    /// The kernel with a number. Numbers above 3 stand for 3.
    #[tactic(auto, unfolding(kernels_spec::specs::Kernel::kernel_of))]
    pub fn of(number: u8) -> Self
        ensures { kernel_named result ≡ kernel_of number }
    {
        match number {
            0 => Kernel::Linear,
            1 => Kernel::ThreePoint,
            2 => Kernel::Parabolic,
            _ => Kernel::Cubic,
        }
    }

    /// Whether the basepoint is the nearest sample, and not the one before.
    #[tactic(auto, unfolding(kernels_spec::specs::Kernel::kernel_of))]
    pub fn nearest(self) -> bool
        ensures { result ≡ (kernel_named self).nearest }
    {
        matches!(self, Kernel::ThreePoint)
    }

    /// How far past the basepoint the kernel reads.
    #[tactic(auto, unfolding(kernels_spec::specs::Kernel::kernel_of))]
    pub fn reach(self) -> u64
        ensures { result ≡ (kernel_named self).reach }
    {
        match self {
            Kernel::Linear | Kernel::ThreePoint => 1,
            Kernel::Parabolic | Kernel::Cubic => 2,
        }
    }

    /// What a numerator is over: 2^42 times the denominator.
    #[tactic(auto, unfolding(kernels_spec::specs::Kernel::kernel_of, kernels_spec::specs::Value::unit))]
    pub fn unit(self) -> i64
        ensures { result ≡ pos (unit (kernel_named self) (2 ^ 14)) }
    {
        match self {
            Kernel::Linear => 0x400_0000_0000,
            Kernel::ThreePoint | Kernel::Parabolic => 0x800_0000_0000,
            Kernel::Cubic => 0x1800_0000_0000,
        }
    }

    /// m: the register's fraction as the filter uses it.
    #[tactic(auto, unfolding(kernels_spec::specs::Value::filter_fraction))]
    pub fn fraction(self, register: u32) -> i64
        ensures { result ≡ filter_fraction (kernel_named self) register }
    {
        oscillator::filter_fraction(self.nearest(), register)
    }

    /// xm, x0, x1, x2 of the newest four samples, 0 where the kernel does not reach.
    #[tactic(auto, unfolding(kernels_spec::specs::Kernel::kernel_of, kernels_spec::specs::Value::window_at))]
    pub fn around(self, window: [i16; 4]) -> [i16; 4]
        ensures { (place : ℕ) → places result place ≡ window_at (kernel_named self) window place }
    {
        match self {
            Kernel::Linear | Kernel::ThreePoint => [window[1], window[2], window[3], 0],
            Kernel::Parabolic | Kernel::Cubic => window,
        }
    }

    /// The coefficients of a power of u.
    #[tactic(auto, unfolding(kernels_spec::specs::Kernel::kernel_of))]
    pub fn row(self, power: usize) -> [i64; 4]
        requires { power < 4 }
        ensures { (place : ℕ) → places result place ≡ (kernel_named self).coefficient power place }
    {
        COEFFICIENTS[self as usize][power]
    }
}
