// The rules of BL, SR, PL and AL: from the values at a block's pins, its settings and its old place to its new place.
#![tactic(auto, unfolding(crate::specs::Switches::bl, crate::specs::Switches::sr, crate::specs::Switches::pl, crate::specs::Switches::al))]

ghost use Rattle.std.specs.Prelude.{◌≡◌};
ghost use Rattle.switches.specs.Switches.{bl, sr, pl, al};

use place::Place;

pub fn bl(value: bool, p: Place) -> Place
    ensures { result ≡ bl value p }
{
    Place { out: value, ..p }
}

// Kept: priority and mode are the numbers of a program's settings, as `sr` and `pl` have them (what may not change).
pub fn sr(s: bool, r: bool, priority: u32, p: Place) -> Place
    ensures { result ≡ sr s r priority p }
{
    let out = match (s, r) {
        (true, true) => priority == 1,
        (true, false) => true,
        (false, true) => false,
        (false, false) => p.out,
    };
    Place { out, ..p }
}

pub fn pl(i: bool, mode: u32, p: Place) -> Place
    ensures { result ≡ pl i mode p }
{
    let out = if mode == 0 {
        p.first_rises(i)
    } else {
        p.first_falls(i)
    };
    Place { out, ..p }
}

pub fn al(i: bool, c: bool, p: Place) -> Place
    ensures { result ≡ al i c p }
{
    let out = if c {
        false
    } else if p.first_rises(i) {
        !p.out
    } else {
        p.out
    };
    Place { out, ..p }
}
