// Whole numbers of every width, as the number that they are.
ghost use Rattle.std.specs.Prelude.{ℕ, ◌≡◌};

pub trait Whole: Copy {
    ghost value: { Self → ℕ };

    fn value(self) -> u64
        ensures { result ≡ value self };
}

impl Whole for u8 {
    ghost value = { λ n. n };

    fn value(self) -> u64 {
        u64::from(self)
    }
}

impl Whole for u16 {
    ghost value = { λ n. n };

    fn value(self) -> u64 {
        u64::from(self)
    }
}

impl Whole for u64 {
    ghost value = { λ n. n };

    fn value(self) -> u64 {
        self
    }
}
