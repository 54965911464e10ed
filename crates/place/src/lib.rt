// What is kept of a block from scan to scan.
#![tactic(auto)]

ghost use Rattle.std.specs.Prelude.{◌≡◌, [], ◌∷◌};
ghost use Rattle.terms.specs.Bits.{packed};
ghost use Rattle.place.specs.Places.{fresh_place, pinned, first_was, second_was, rises, falls, either_differs};

#[derive(Clone, Copy, Debug, PartialEq, Eq)]
pub struct Place {
    pub pins: u8,
    pub out: bool,
    pub ticks: u32,
    pub word: i16,
}

impl Place {
    // A place as it is in a fresh state.
    pub fn fresh() -> Place
        ensures { result ≡ fresh_place }
    {
        Place {
            pins: 0,
            out: false,
            ticks: 0,
            word: 0,
        }
    }

    // The place with these last pins.
    pub fn pin(self, n: u8) -> Place
        ensures { result ≡ pinned n self }
    {
        Place { pins: n, ..self }
    }

    // Whether the first pin is on now and off in the last pins.
    pub fn first_rises(self, is_on: bool) -> bool
        ensures { result ≡ rises is_on (first_was self) }
    {
        is_on && self.pins % 2 != 1
    }

    // Whether the first pin is off now and on in the last pins.
    pub fn first_falls(self, is_on: bool) -> bool
        ensures { result ≡ falls is_on (first_was self) }
    {
        !is_on && self.pins % 2 == 1
    }

    // Whether the second pin is on now and off in the last pins.
    pub fn second_rises(self, is_on: bool) -> bool
        ensures { result ≡ rises is_on (second_was self) }
    {
        is_on && self.pins / 2 % 2 != 1
    }

    // Whether the first or the second pin differs from its last.
    pub fn either_differs(self, first: bool, second: bool) -> bool
        ensures { result ≡ either_differs first second self }
    {
        first != (self.pins % 2 == 1) || second != (self.pins / 2 % 2 == 1)
    }
}

// Up to four pins in field order, first lowest.
pub fn pack(a: bool, b: bool, c: bool, d: bool) -> u8
    ensures { result ≡ packed (a ∷ b ∷ c ∷ d ∷ []) }
{
    u8::from(a) + 2 * (u8::from(b) + 2 * (u8::from(c) + 2 * u8::from(d)))
}
