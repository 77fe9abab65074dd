//! The numbers that lists are kept in.

ghost use Rattle.std.specs.Prelude.{◌≡◌, ℕ, ◌^◌, ◌<◌, ◌≤◌};

/// A kind of number for places: the narrower, the less memory lists take, and the fewer places they can have.
pub trait Width: Copy {
    // The greatest of them.
    ghost most: { ℕ };

    ghost number: { Self → ℕ };

    /// The greatest of them.
    fn most() -> u32
        ensures { result ≡ most };

    /// The number as one of them.
    fn of(value: u32) -> Self
        requires { value ≤ most }
        ensures { number result ≡ value };

    /// The number that it is.
    fn get(self) -> u32
        ensures number { result ≡ number self }
        ensures most { result ≤ most };

    ghost small: { most < 2 ^ 32 };
}

impl Width for u16 {
    ghost use Rattle.std.specs.Prelude.{◌-◌, ◌^◌};
    ghost use Rattle.std.proofs.Common.{lit<};

    ghost most = { 2 ^ 16 - 1 };

    ghost number = { λ n. n };

    #[inline(always)]
    fn most() -> u32 {
        u16::MAX as u32
    }

    #[inline(always)]
    fn of(number: u32) -> u16 {
        number as u16
    }

    #[inline(always)]
    fn get(self) -> u32 {
        self as u32
    }

    ghost small = { lit< tt };
}

impl Width for u32 {
    ghost use Rattle.std.specs.Prelude.{◌-◌, ◌^◌};
    ghost use Rattle.std.proofs.Common.{lit<};

    ghost most = { 2 ^ 32 - 1 };

    ghost number = { λ n. n };

    #[inline(always)]
    fn most() -> u32 {
        u32::MAX
    }

    #[inline(always)]
    fn of(number: u32) -> u32 {
        number
    }

    #[inline(always)]
    fn get(self) -> u32 {
        self
    }

    ghost small = { lit< tt };
}
