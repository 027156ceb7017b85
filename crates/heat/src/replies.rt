// What is answered, and the number for it.
ghost use Rattle.std.specs.Prelude.{◌≡◌};
ghost use Rattle.heat.specs.Replies.{number_of};

// Document 01 names these two cases, "either that double or refusal 5".
#[derive(Clone, Copy)]
pub enum HeatCapacity {
    KilojoulesPerKilogramKelvin(f64),
    OutOfRange,
}

impl HeatCapacity {
    pub fn number(self) -> u64
        ensures { result ≡ number_of self }
    {
        match self {
            HeatCapacity::KilojoulesPerKilogramKelvin(_) => 0,
            HeatCapacity::OutOfRange => 5,
        }
    }
}
