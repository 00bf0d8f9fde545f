// Why a call is not taken.
ghost use Rattle.std.specs.Prelude.{◌≡◌};
ghost use Rattle.rules.specs.Refusals.{number_of};

#[derive(Clone, Copy, PartialEq, Eq, Debug)]
pub enum Refusal {
    NoSuchId,
    LineIsDown,
    PriceNotTaken,
    VolumeOutOfRange,
    MinimumOutOfRange,
    ModifierNotAllowed,
    DayOutOfRange,
    BookFull,
    NumbersUsedUp,
    NoSuchOrder,
    HeldByAnother,
    ReductionOutOfRange,
    LineIsUp,
    SuccessorNotAllowed,
    Policy(policy::Refusal),
}

impl Refusal {
    // The number that the exchange is told. No `From`: the number is only one thing that is told of a refusal.
    pub fn number(self) -> u32
        ensures { result ≡ number_of self }
    {
        match self {
            Refusal::NoSuchId => 1,
            Refusal::LineIsDown => 2,
            Refusal::PriceNotTaken => 3,
            Refusal::VolumeOutOfRange => 4,
            Refusal::MinimumOutOfRange => 5,
            Refusal::ModifierNotAllowed => 6,
            Refusal::DayOutOfRange => 7,
            Refusal::BookFull => 8,
            Refusal::NumbersUsedUp => 9,
            Refusal::NoSuchOrder => 10,
            Refusal::HeldByAnother => 11,
            Refusal::ReductionOutOfRange => 12,
            Refusal::LineIsUp => 13,
            Refusal::SuccessorNotAllowed => 14,
            Refusal::Policy(r) => r.number(),
        }
    }
}
