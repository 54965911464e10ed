// Numbers on the wire: one to three groups of seven bits, lowest first, in shortest form.
#![tactic(auto)]

ghost use Rattle.std.specs.Prelude.{◌≡◌, ◌<◌};
ghost use Rattle.wire.specs.Number.{as_num, groups_at, more, not_zero, number_at};
ghost use Rattle.wire.specs.Facts.{NumberFacts};

// The least last group after the first.
const NOT_ZERO: u8 = 1;

// Why no number is read: it is badly formed, or the end of the data cuts it.
#[derive(Clone, Copy, Debug, PartialEq, Eq)]
pub enum Unread {
    BadlyFormed,
    Cut,
}

// The number whose first group is `low`, where its other groups, one or two, stand from `at` on.
#[tactic(auto, unfolding(crate::specs::Number::groups_at))]
#[inline(always)]
fn longer(s: &[u8], at: usize, low: u32) -> Result<(u32, usize), Unread>
    requires { low < 128 }
    ensures { result ≡ as_num (more low (groups_at 2 not_zero s.now at)) }
{
    let b = *s.get(at).ok_or(Unread::Cut)?;
    if b < 128 {
        if b < NOT_ZERO {
            return Err(Unread::BadlyFormed); // as 81 00
        }
        return Ok((low + u32::from(b) * 128, at + 1));
    }
    let c = *s.get(at + 1).ok_or(Unread::Cut)?;
    if 128 <= c {
        return Err(Unread::BadlyFormed); // over three groups
    }
    if c < NOT_ZERO {
        return Err(Unread::BadlyFormed); // as 81 80 00
    }
    let high = u32::from(b % 128) + u32::from(c) * 128;
    Ok((low + high * 128, at + 2))
}

// The number at a place, and the place after it.
#[tactic(auto, unfolding(crate::specs::Number::groups_at, crate::specs::Number::number_at))]
#[inline(always)]
pub fn number(s: &[u8], at: usize) -> Result<(u32, usize), Unread>
    ensures { result ≡ as_num (number_at s.now at) }
{
    let a = *s.get(at).ok_or(Unread::Cut)?;
    if a < 128 {
        return Ok((u32::from(a), at + 1));
    }
    longer(s, at + 1, u32::from(a % 128))
}

// The facts of numbers, as a theorem: it does nothing when called.
pub fn number_facts()
    ensures { NumberFacts }
{}
