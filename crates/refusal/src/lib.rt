// Why a call is refused, and the number of each refusal (rules R1 to R13).
#![tactic(auto)]

ghost use Rattle.std.specs.Prelude.{◌≡◌};
ghost use Rattle.refusal.specs.Numbers.{number_for, NumbersApart};

#[derive(Clone, Copy, PartialEq, Eq, Debug)]
pub enum Refusal {
    BadBuffer,
    OutOfTurn,
    RunFull,
    BadTable,
    NoTable,
    NoRow,
    TooShort,
    BadSubBlocks,
    NoSuchField,
    NotOneFrame,
    BadValues,
    NoRoom,
    BadCeiling,
}

// The number of a refusal.
impl From<Refusal> for u32 {
    ghost from_gives = { λ x n. n ≡ number_for x };

    fn from(x: Refusal) -> u32 {
        match x {
            Refusal::BadBuffer => 1,
            Refusal::OutOfTurn => 2,
            Refusal::RunFull => 3,
            Refusal::BadTable => 4,
            Refusal::NoTable => 5,
            Refusal::NoRow => 6,
            Refusal::TooShort => 7,
            Refusal::BadSubBlocks => 8,
            Refusal::NoSuchField => 9,
            Refusal::NotOneFrame => 10,
            Refusal::BadValues => 11,
            Refusal::NoRoom => 12,
            Refusal::BadCeiling => 13,
        }
    }
}

// A number tells its refusal.
pub fn numbers_apart()
    ensures { NumbersApart }
{}
