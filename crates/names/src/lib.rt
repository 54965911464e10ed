// Names put as text: a letter with its digits, and the name of a bit reference.
#![tactic(auto)]

ghost use Rattle.std.specs.Prelude.{◌∷◌, ◌+◌, ◌<◌, ◌^◌};
ghost use Rattle.numbers.specs.Types.{bit_ref};
ghost use Rattle.filling.specs.Filling.{Put};
ghost use Rattle.shown.specs.Show.{in_digits, name_of};

// Puts a number in so many digits, the first of them zeros.
fn put_digits(out: &mut [u8], at: usize, digits: u8, n: u32) -> usize
    requires { at + digits < 2 ^ 64 }
    ensures { Put (in_digits digits n) out.old at out.new result }
{
    if digits == 0 {
        return at;
    }
    let last = put_digits(out, at, digits - 1, n / 10);
    filling::put_byte(out, last, b'0' + ((n % 10) as u8));
    last + 1
}

// Puts a letter and a number in so many digits.
pub fn put_numbered(out: &mut [u8], at: usize, letter: u8, digits: u8, n: u32) -> usize
    requires { at + 1 + digits < 2 ^ 64 }
    ensures { Put (letter ∷ in_digits digits n) out.old at out.new result }
{
    filling::put_byte(out, at, letter);
    put_digits(out, at + 1, digits, n)
}

// Puts the name of a bit reference.
pub fn put_name(out: &mut [u8], at: usize, r: u32) -> usize
    requires { at + 4 < 2 ^ 64 }
    ensures { Put (name_of (bit_ref r)) out.old at out.new result }
{
    match r {
        0 => filling::put(out, at, b"0"),
        1 => filling::put(out, at, b"1"),
        2..34 => put_numbered(out, at, b'I', 2, r - 2 + 1),
        _ => put_numbered(out, at, b'B', 3, r - 34),
    }
}
