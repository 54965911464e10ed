// The numbers of refusal, by the names of specs/Refusals.
ghost use Rattle.std.specs.Prelude.{◌≡◌};
ghost use Rattle.terms.specs.Refusals.{number_of};

// Why a call is refused.
#[derive(Clone, Copy, Debug, PartialEq, Eq)]
pub enum Refusal {
    BadNumber,
    Outside,
    Astray,
    OverMemory,
    BadState,
    TooFar,
    BadText,
    CutNumber,
    ShortBuffer,
}

impl Refusal {
    // The number that a console is told.
    pub fn number(self) -> u8
        ensures { result ≡ number_of self }
    {
        match self {
            Refusal::BadNumber => 1,
            Refusal::Outside => 2,
            Refusal::Astray => 3,
            Refusal::OverMemory => 4,
            Refusal::BadState => 5,
            Refusal::TooFar => 6,
            Refusal::BadText => 7,
            Refusal::CutNumber => 8,
            Refusal::ShortBuffer => 12,
        }
    }
}

// What is refused, and the place of the first byte that it is refused for.
#[derive(Clone, Copy, Debug, PartialEq, Eq)]
pub struct Fault {
    pub refusal: Refusal,
    pub at: usize,
}
