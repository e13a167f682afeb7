// Narrow numbers as wide ones.
ghost use Rattle.std.specs.Prelude.{ℕ, ◌≡◌, ◌<◌, ◌^◌};

pub trait Narrow {
    // The number that a value is.
    ghost number: { Self → ℕ };

    // All values are below it.
    ghost bound: { ℕ };

    fn wide(self) -> usize
        ensures { (result ≡ number self) × (result < bound) };
}

impl Narrow for u8 {
    ghost number = { λ x. x };

    ghost bound = { 256 };

    fn wide(self) -> usize {
        usize::from(self)
    }
}

impl Narrow for u16 {
    ghost number = { λ x. x };

    ghost bound = { 65536 };

    fn wide(self) -> usize {
        usize::from(self)
    }
}

impl Narrow for u32 {
    ghost number = { λ x. x };

    ghost bound = { 2 ^ 32 };

    fn wide(self) -> usize {
        self as usize
    }
}
