// The refusals of a state (docs/RULES.md, "Replies"), and the number of each. Which of them a call
// gives is said by its list of checks (specs/Checks.antt), in the rules' order.
#![tactic(auto)]

ghost use Rattle.std.specs.Prelude.{◌≡◌};
ghost use Rattle.refusals.specs.Numbers.{number_of_refusal};

#[derive(Clone, Copy, Debug, PartialEq, Eq)]
pub enum Refusal {
    NoSuchFluid,
    TemperatureTooLow,
    TemperatureTooHigh,
    PressureTooLow,
    PressureTooHigh,
    NoSuchSide,
    NoSuchSlot,
    WalkCutShort,
    ScalingOutOfRange,
    RootDiffers,
}

impl Refusal {
    pub fn number(self) -> u64
        ensures { result ≡ number_of_refusal self }
    {
        match self {
            Refusal::NoSuchFluid => 1,
            Refusal::TemperatureTooLow => 21,
            Refusal::TemperatureTooHigh => 22,
            Refusal::PressureTooLow => 31,
            Refusal::PressureTooHigh => 32,
            Refusal::NoSuchSide => 12,
            Refusal::NoSuchSlot => 4,
            Refusal::WalkCutShort => 11,
            Refusal::ScalingOutOfRange => 13,
            Refusal::RootDiffers => 14,
        }
    }
}
