// The rules of CN and UD: from the values at a block's pins, its preset and its old place to its new place.
#![tactic(auto, unfolding(crate::specs::Counters::cn_word, crate::specs::Counters::cn, crate::specs::Counters::ud_word, crate::specs::Counters::ud))]

ghost use Rattle.std.specs.Prelude.{◌≡◌};
ghost use Rattle.counters.specs.Counters.{cn_word, cn, ud_word, ud};

use place::Place;

// The word of CN.
fn cn_word(i: bool, c: bool, p: Place) -> i16
    ensures { result ≡ cn_word i c p }
{
    if c {
        return 0;
    }
    if p.first_rises(i) {
        return p.word.saturating_add(1);
    }
    p.word
}

pub fn cn(i: bool, c: bool, preset: i16, p: Place) -> Place
    ensures { result ≡ cn i c preset p }
{
    let word = cn_word(i, c, p);
    Place {
        out: preset <= word,
        word,
        ..p
    }
}

// The word of UD.
fn ud_word(u: bool, d: bool, set: bool, c: bool, preset: i16, p: Place) -> i16
    ensures { result ≡ ud_word u d set c preset p }
{
    if c {
        return 0;
    }
    if set {
        return preset;
    }
    match (p.first_rises(u), p.second_rises(d)) {
        (true, false) => p.word.saturating_add(1),
        (false, true) => p.word.saturating_sub(1),
        _ => p.word,
    }
}

pub fn ud(u: bool, d: bool, set: bool, c: bool, preset: i16, p: Place) -> Place
    ensures { result ≡ ud u d set c preset p }
{
    let word = ud_word(u, d, set, c, preset, p);
    Place {
        out: preset <= word,
        word,
        ..p
    }
}
