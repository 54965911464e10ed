// The rules of CP, OG, ZC and ST: from the values at a block's pin and words, its settings and its old place to its new place.
#![tactic(auto, unfolding(crate::specs::Analog::same, crate::specs::Analog::related, crate::specs::Analog::cp, crate::specs::Analog::scaled, crate::specs::Analog::og, crate::specs::Analog::zc, crate::specs::Analog::st))]

ghost use Rattle.std.specs.Prelude.{◌≡◌, ◌&&◌, pos};
ghost use Rattle.std.specs.Int.Signed.{le_z};
ghost use Rattle.analog.specs.Analog.{related, cp, scaled, og, zc, st};

use place::Place;

// A (relation) B.
// Kept: relation and mode are the numbers of a program's settings, as `related` and `zc` have them (what may not change).
fn relates(relation: u32, a: i16, b: i16) -> bool
    ensures { result ≡ related relation a b }
{
    match relation {
        0 => a == b,
        1 => a > b,
        2 => a >= b,
        3 => a < b,
        4 => a <= b,
        _ => a != b,
    }
}

pub fn cp(i: bool, relation: u32, a: i16, b: i16, p: Place) -> Place
    ensures { result ≡ cp i relation a b p }
{
    Place {
        out: i && relates(relation, a, b),
        ..p
    }
}

// A times X divided by B, cut toward zero, plus C.
fn scale(a: i16, x: i16, b: i16, c: i16) -> i32
    requires { b ≡ pos 0 → ⊥ }
    ensures { result ≡ scaled a x b c }
{
    let product = i32::from(a) * i32::from(x);
    product / i32::from(b) + i32::from(c)
}

pub fn og(i: bool, a: i16, b: i16, c: i16, x: i16, p: Place) -> Place
    requires { b ≡ pos 0 → ⊥ }
    ensures { result ≡ og i a b c x p }
{
    if !i {
        return Place { out: false, ..p };
    }
    let z = scale(a, x, b, c);
    let word = terms::hold(z);
    Place {
        out: i32::from(word) != z,
        word,
        ..p
    }
}

// L ≤ X ≤ H.
fn inside(l: i16, x: i16, h: i16) -> bool
    ensures { result ≡ (le_z l x && le_z x h) }
{
    l <= x && x <= h
}

pub fn zc(i: bool, mode: u32, l: i16, x: i16, h: i16, p: Place) -> Place
    ensures { result ≡ zc i mode l x h p }
{
    let is_inside = inside(l, x, h);
    let out = i && if mode == 0 { is_inside } else { !is_inside };
    Place { out, ..p }
}

pub fn st(i: bool, x: i16, h: i16, l: i16, p: Place) -> Place
    ensures { result ≡ st i x h l p }
{
    let out = if !i {
        p.out
    } else if h <= x {
        true
    } else if x < l {
        false
    } else {
        p.out
    };
    Place { out, ..p }
}
