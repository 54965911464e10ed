// The rule of a block's kind, by the numbers of its fields: the values at its pins and words, its settings, the elapsed ticks.
#![tactic(auto)]

ghost use Rattle.std.specs.Prelude.{◌≡◌, true, ◌<◌};
ghost use Rattle.numbers.specs.Types.{kind_count, allowed, bit_ref, word_ref, word_pin};
ghost use Rattle.kinds.specs.Kinds.{types_of};
ghost use Rattle.expression.specs.Expression.{bit_in};
ghost use Rattle.rules.specs.Rules.{ruled, word_in};
ghost use Rattle.rules.specs.Rows.{all_allowed, row_block};

use place::Place;

// What the references read as in a block's turn, in the order of their numbers, and the elapsed ticks.
#[derive(Clone, Copy)]
pub struct Readings<'a> {
    pub bits: &'a [bool; 234],
    pub words: &'a [i16; 208],
    pub elapsed: u16,
}

impl Readings<'_> {
    // The value at a bit reference.
    fn bit(self, r: u32) -> bool
        requires { r < 234 }
        ensures { result ≡ bit_in self.entry.bits.now (bit_ref r) }
    {
        self.bits[r as usize]
    }

    // The value at a word reference.
    fn word(self, r: u32) -> i16
        requires { allowed word_pin 0 r ≡ true }
        ensures { result ≡ word_in self.entry.words.now (word_ref r) }
    {
        if r < 208 {
            self.words[r as usize]
        } else {
            (r as i32 - 33768) as i16
        }
    }
}

fn turn_sr(f: [u32; 5], p: Place, at: Readings<'_>) -> Place
    requires { all_allowed (types_of 1) 0 0 f ≡ true }
    ensures { result ≡ ruled (bit_in at.entry.bits.now) (word_in at.entry.words.now) at.entry.elapsed (row_block 1 f) p }
{
    let s = at.bit(f[0]);
    let r = at.bit(f[1]);
    switches::sr(s, r, f[2], p).pin(place::pack(s, r, false, false))
}

fn turn_pl(f: [u32; 5], p: Place, at: Readings<'_>) -> Place
    requires { all_allowed (types_of 2) 0 0 f ≡ true }
    ensures { result ≡ ruled (bit_in at.entry.bits.now) (word_in at.entry.words.now) at.entry.elapsed (row_block 2 f) p }
{
    let i = at.bit(f[0]);
    switches::pl(i, f[1], p).pin(place::pack(i, false, false, false))
}

fn turn_al(f: [u32; 5], p: Place, at: Readings<'_>) -> Place
    requires { all_allowed (types_of 3) 0 0 f ≡ true }
    ensures { result ≡ ruled (bit_in at.entry.bits.now) (word_in at.entry.words.now) at.entry.elapsed (row_block 3 f) p }
{
    let i = at.bit(f[0]);
    let c = at.bit(f[1]);
    switches::al(i, c, p).pin(place::pack(i, c, false, false))
}

fn turn_dl(f: [u32; 5], p: Place, at: Readings<'_>) -> Place
    requires { all_allowed (types_of 4) 0 0 f ≡ true }
    ensures { result ≡ ruled (bit_in at.entry.bits.now) (word_in at.entry.words.now) at.entry.elapsed (row_block 4 f) p }
{
    let i = at.bit(f[0]);
    let c = at.bit(f[1]);
    timers::dl(i, c, f[2], f[3], f[4], at.elapsed, p).pin(place::pack(i, c, false, false))
}

fn turn_os(f: [u32; 5], p: Place, at: Readings<'_>) -> Place
    requires { all_allowed (types_of 5) 0 0 f ≡ true }
    ensures { result ≡ ruled (bit_in at.entry.bits.now) (word_in at.entry.words.now) at.entry.elapsed (row_block 5 f) p }
{
    let i = at.bit(f[0]);
    let c = at.bit(f[1]);
    timers::os(i, c, f[2], f[3], at.elapsed, p).pin(place::pack(i, c, false, false))
}

fn turn_fl(f: [u32; 5], p: Place, at: Readings<'_>) -> Place
    requires { all_allowed (types_of 6) 0 0 f ≡ true }
    ensures { result ≡ ruled (bit_in at.entry.bits.now) (word_in at.entry.words.now) at.entry.elapsed (row_block 6 f) p }
{
    let i = at.bit(f[0]);
    timers::fl(i, f[1], f[2], f[3], at.elapsed, p).pin(place::pack(i, false, false, false))
}

fn turn_cn(f: [u32; 5], p: Place, at: Readings<'_>) -> Place
    requires { all_allowed (types_of 7) 0 0 f ≡ true }
    ensures { result ≡ ruled (bit_in at.entry.bits.now) (word_in at.entry.words.now) at.entry.elapsed (row_block 7 f) p }
{
    let i = at.bit(f[0]);
    let c = at.bit(f[1]);
    let preset = f[2] as i16;
    counters::cn(i, c, preset, p).pin(place::pack(i, c, false, false))
}

fn turn_ud(f: [u32; 5], p: Place, at: Readings<'_>) -> Place
    requires { all_allowed (types_of 8) 0 0 f ≡ true }
    ensures { result ≡ ruled (bit_in at.entry.bits.now) (word_in at.entry.words.now) at.entry.elapsed (row_block 8 f) p }
{
    let u = at.bit(f[0]);
    let d = at.bit(f[1]);
    let set = at.bit(f[2]);
    let c = at.bit(f[3]);
    let preset = terms::signed(f[4] as u16);
    counters::ud(u, d, set, c, preset, p).pin(place::pack(u, d, set, c))
}

fn turn_cp(f: [u32; 5], p: Place, at: Readings<'_>) -> Place
    requires { all_allowed (types_of 9) 0 0 f ≡ true }
    ensures { result ≡ ruled (bit_in at.entry.bits.now) (word_in at.entry.words.now) at.entry.elapsed (row_block 9 f) p }
{
    let i = at.bit(f[0]);
    let a = at.word(f[2]);
    let b = at.word(f[3]);
    analog::cp(i, f[1], a, b, p).pin(place::pack(i, false, false, false))
}

fn turn_og(f: [u32; 5], p: Place, at: Readings<'_>) -> Place
    requires { all_allowed (types_of 10) 0 0 f ≡ true }
    ensures { result ≡ ruled (bit_in at.entry.bits.now) (word_in at.entry.words.now) at.entry.elapsed (row_block 10 f) p }
{
    let i = at.bit(f[0]);
    let a = terms::signed(f[1] as u16);
    let b = terms::signed(f[2] as u16);
    let c = terms::signed(f[3] as u16);
    let x = at.word(f[4]);
    analog::og(i, a, b, c, x, p).pin(place::pack(i, false, false, false))
}

fn turn_zc(f: [u32; 5], p: Place, at: Readings<'_>) -> Place
    requires { all_allowed (types_of 11) 0 0 f ≡ true }
    ensures { result ≡ ruled (bit_in at.entry.bits.now) (word_in at.entry.words.now) at.entry.elapsed (row_block 11 f) p }
{
    let i = at.bit(f[0]);
    let l = at.word(f[2]);
    let x = at.word(f[3]);
    let h = at.word(f[4]);
    analog::zc(i, f[1], l, x, h, p).pin(place::pack(i, false, false, false))
}

fn turn_st(f: [u32; 5], p: Place, at: Readings<'_>) -> Place
    requires { all_allowed (types_of 12) 0 0 f ≡ true }
    ensures { result ≡ ruled (bit_in at.entry.bits.now) (word_in at.entry.words.now) at.entry.elapsed (row_block 12 f) p }
{
    let i = at.bit(f[0]);
    let x = at.word(f[1]);
    let h = at.word(f[2]);
    let l = at.word(f[3]);
    analog::st(i, x, h, l, p).pin(place::pack(i, false, false, false))
}

// The new place of a block of any kind but BL, by the numbers of its fields.
pub fn apply(kind: u8, f: [u32; 5], p: Place, at: Readings<'_>) -> Place
    requires { (kind < kind_count) × (all_allowed (types_of kind) 0 0 f ≡ true) }
    ensures { result ≡ ruled (bit_in at.entry.bits.now) (word_in at.entry.words.now) at.entry.elapsed (row_block kind f) p }
{
    match kind {
        1 => turn_sr(f, p, at),
        2 => turn_pl(f, p, at),
        3 => turn_al(f, p, at),
        4 => turn_dl(f, p, at),
        5 => turn_os(f, p, at),
        6 => turn_fl(f, p, at),
        7 => turn_cn(f, p, at),
        8 => turn_ud(f, p, at),
        9 => turn_cp(f, p, at),
        10 => turn_og(f, p, at),
        11 => turn_zc(f, p, at),
        _ => turn_st(f, p, at),
    }
}
