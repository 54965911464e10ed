// Text put into a lent buffer, as far as it has places: so the same function measures a text, on no places, and writes it.
#![tactic(auto)]

ghost use Rattle.std.specs.Prelude.{◌≡◌, ◌+◌, ◌<◌, ◌^◌, length, set};
ghost use Rattle.filling.specs.Filling.{decimal, Put};

// Puts a byte at a place, if there is one.
pub fn put_byte(out: &mut [u8], at: usize, byte: u8)
    ensures { out.new ≡ set out.old at byte }
{
    if at < out.len() {
        out[at] = byte;
    }
}

// Puts text at a place, and answers the place after it.
pub fn put(out: &mut [u8], at: usize, text: &[u8]) -> usize
    requires { at + length text.now < 2 ^ 64 }
    ensures { Put text.now out.old at out.new result }
{
    for (i, byte) in text.iter().enumerate() {
        put_byte(out, at + i, *byte);
    }
    at + text.len()
}

// Puts a number in decimal.
pub fn put_decimal(out: &mut [u8], at: usize, n: u32) -> usize
    requires { at + 10 < 2 ^ 64 }
    ensures { Put (decimal n) out.old at out.new result }
{
    let last = if n < 10 {
        at
    } else {
        put_decimal(out, at, n / 10)
    };
    put_byte(out, last, b'0' + ((n % 10) as u8));
    last + 1
}
