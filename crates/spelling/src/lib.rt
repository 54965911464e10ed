// What stands at a place of a formula's text: spaces, a name, an operator.
#![tactic(auto)]

ghost use Rattle.std.specs.Prelude.{◌≡◌, ◌≤◌, Ok};
ghost use Rattle.wire.specs.Number.{byte_at};
ghost use Rattle.grammar.specs.Machine.{tens};
ghost use Rattle.spelling.specs.Spelling.{
  after_spaces,
  digits_at,
  name_at,
  of_level,
  banged_at,
  sign_at,
  as_digits,
  as_named,
  as_sign,
};

// The levels of lists, by the numbers of specs/Spelling.
pub const OR_LIST: u8 = 0;

pub const XOR_LIST: u8 = 1;

pub const AND_LIST: u8 = 2;

// The byte at a place; 0, which no formula has, past the end.
pub fn byte_at(text: &[u8], at: usize) -> u8
    ensures { result ≡ byte_at text.now at }
{
    text.get(at).copied().unwrap_or(0)
}

// The place behind the spaces that stand from a place on.
pub fn skip_spaces(text: &[u8], at: usize) -> usize
    ensures { result ≡ after_spaces text.now at }
{
    // Kept: with `take_while` and `count` the proof did not close (tried).
    let mut p = at;
    while byte_at(text, p) == b' ' {
        p += 1;
    }
    p
}

// How many numbers have k digits.
fn tens_of(k: u8) -> u32
    requires { k ≤ 2 }
    ensures { result ≡ tens k }
{
    match k {
        0 => 1,
        1 => 10,
        _ => 100,
    }
}

// A number of so many digits from `least` to `most` and the place behind it, or the first place that no such number has.
pub fn read_digits(
    text: &[u8],
    at: usize,
    count: u8,
    least: u32,
    most: u32,
) -> Result<(u16, usize), usize>
    requires { (count ≤ 3) × (most ≤ 999) }
    ensures { result ≡ as_digits (digits_at count 0 least most text.now at) }
{
    let mut p = at;
    let mut n: u32 = 0;
    for i in 0..count {
        let b = byte_at(text, p);
        if !b.is_ascii_digit() {
            return Err(p);
        }
        n = 10 * n + u32::from(b - b'0');
        let unit = tens_of(count - 1 - i);
        let first = n * unit;
        if most < first || first + unit <= least {
            return Err(p);
        }
        p += 1;
    }
    Ok((n as u16, p))
}

// The bit reference of the name at a place and the place behind it, or the first place that no name has.
#[tactic(auto, unfolding(crate::specs::Spelling::name_at))]
pub fn read_name(text: &[u8], at: usize) -> Result<(u32, usize), usize>
    ensures { result ≡ as_named (name_at text.now at) }
{
    match byte_at(text, at) {
        b'0' => Ok((0, at + 1)),
        b'1' => Ok((1, at + 1)),
        b'I' => {
            let (n, next) = read_digits(text, at + 1, 2, 1, 32)?;
            Ok((1 + u32::from(n), next))
        }
        b'B' => {
            let (n, next) = read_digits(text, at + 1, 3, 0, 199)?;
            Ok((34 + u32::from(n), next))
        }
        _ => Err(at),
    }
}

// An operator of one level where one of another is looked for.
fn of_level(level: u8, its: u8, op: u8, next: usize) -> Option<(u8, usize)>
    ensures { as_sign (of_level level its op next) ≡ Ok result }
{
    if level == its { Some((op, next)) } else { None }
}

// What stands behind a `!` that stands behind a part.
#[tactic(auto, unfolding(crate::specs::Spelling::banged_at))]
fn behind_bang(text: &[u8], at: usize, level: u8) -> Result<Option<(u8, usize)>, usize>
    ensures { result ≡ as_sign (banged_at level text.now at) }
{
    match byte_at(text, at) {
        b'&' => Ok(of_level(level, AND_LIST, 4, at + 1)),
        b'|' => Ok(of_level(level, OR_LIST, 5, at + 1)),
        _ => Err(at),
    }
}

// The operator of a level at a place behind a part and the place behind it, if there is one; or the place behind a `!` where neither `&` nor `|` stands.
#[tactic(auto, unfolding(crate::specs::Spelling::sign_at))]
pub fn read_sign(text: &[u8], at: usize, level: u8) -> Result<Option<(u8, usize)>, usize>
    ensures { result ≡ as_sign (sign_at level text.now at) }
{
    match byte_at(text, at) {
        b'&' => Ok(of_level(level, AND_LIST, 1, at + 1)),
        b'^' => Ok(of_level(level, XOR_LIST, 3, at + 1)),
        b'|' => Ok(of_level(level, OR_LIST, 2, at + 1)),
        b'!' => behind_bang(text, at + 1, level),
        _ => Ok(None),
    }
}
