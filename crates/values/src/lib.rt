// The values of fields as text: names of bits and words, and decimals.
#![tactic(auto)]

ghost use Rattle.std.specs.Prelude.{◌≡◌, ◌+◌, ◌<◌, ◌≤◌, ◌^◌, length};
ghost use Rattle.numbers.specs.Types.{number_types};
ghost use Rattle.filling.specs.Filling.{decimal};
ghost use Rattle.values.specs.Values.{bias_of};
ghost use Rattle.values.specs.Reading.{run_at, plain_at, signed_at, word_at, value_at, as_value};

// Digits that stand in a text: how many, and their number.
#[derive(Clone, Copy)]
pub struct Run {
    pub count: u8,
    pub number: u32,
}

// The digits from a place on; six are enough, since no value has more than five.
fn read_run(text: &[u8], at: usize) -> Run
    requires { at ≤ length text.now }
    ensures { result ≡ run_at 6 0 0 text.now at }
{
    let mut number: u32 = 0;
    for count in 0..6 {
        let b = spelling::byte_at(text, at + count as usize);
        if !b.is_ascii_digit() {
            return Run { count, number };
        }
        number = 10 * number + u32::from(b - b'0');
    }
    Run { count: 6, number }
}

// How many digits a number of at most six has.
fn size_of(n: u32) -> u8
    requires { n < 1000000 }
    ensures { result ≡ length (decimal n) }
{
    match n {
        0..=9 => 1,
        10..=99 => 2,
        100..=999 => 3,
        1000..=9999 => 4,
        10000..=99999 => 5,
        _ => 6,
    }
}

// A decimal up to `most` and the place behind it.
fn read_plain(text: &[u8], at: usize, most: u32) -> Option<(u32, usize)>
    requires { at ≤ length text.now }
    ensures { result ≡ as_value (plain_at most text.now at) }
{
    let r = read_run(text, at);
    if r.count != size_of(r.number) || most < r.number {
        return None;
    }
    Some((r.number, at + r.count as usize))
}

// A decimal from −down to up, carried with a bias, and the place behind it.
fn read_signed(text: &[u8], at: usize, bias: u32, down: u32, up: u32) -> Option<(u32, usize)>
    requires { (at ≤ length text.now) × ((down ≤ bias) × (bias + up < 2 ^ 32)) }
    ensures { result ≡ as_value (signed_at bias down up text.now at) }
{
    if spelling::byte_at(text, at) == b'-' {
        let (n, next) = read_plain(text, at + 1, down)?;
        if n == 0 {
            return None;
        }
        return Some((bias - n, next));
    }
    let (n, next) = read_plain(text, at, up)?;
    Some((bias + n, next))
}

// A constant of a word is carried as value + this.
pub const CONSTANT_BIAS: u32 = 33768;

// A word, A01 to A08, W000 to W199 or a constant, and the place behind it.
#[tactic(auto, unfolding(crate::specs::Reading::word_at))]
fn read_word(text: &[u8], at: usize) -> Option<(u32, usize)>
    requires { at ≤ length text.now }
    ensures { result ≡ as_value (word_at text.now at) }
{
    match spelling::byte_at(text, at) {
        b'A' => {
            let (n, next) = spelling::read_digits(text, at + 1, 2, 1, 8).ok()?;
            Some((u32::from(n) - 1, next))
        }
        b'W' => {
            let (n, next) = spelling::read_digits(text, at + 1, 3, 0, 199).ok()?;
            Some((u32::from(n) + 8, next))
        }
        _ => read_signed(text, at, CONSTANT_BIAS, 32768, 32767),
    }
}

// What is added to a setting of a type where it is carried.
#[tactic(auto, unfolding(crate::specs::Values::bias_of))]
pub fn bias_of(ty: u8) -> u32
    ensures { result ≡ bias_of ty }
{
    match ty {
        numbers::PLUS_MINUS | numbers::DIVISOR => 32768,
        _ => 0,
    }
}

// The value at a place, of a field of a type: its number as it is carried and the place behind its text, if there is one.
#[tactic(auto, unfolding(crate::specs::Reading::value_at))]
pub fn read_value(text: &[u8], at: usize, ty: u8) -> Option<(u32, usize)>
    requires { (at ≤ length text.now) × (ty < number_types) }
    ensures { result ≡ as_value (value_at ty text.now at) }
{
    match ty {
        numbers::PIN => spelling::read_name(text, at).ok(),
        numbers::WORD_PIN => read_word(text, at),
        _ => {
            let bias = bias_of(ty);
            read_signed(text, at, bias, bias, numbers::limit_of(ty) - 1 - bias)
        }
    }
}
