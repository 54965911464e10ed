// The values of fields put as text.
#![tactic(auto)]

ghost use Rattle.std.specs.Prelude.{◌+◌, ◌<◌, ◌^◌};
ghost use Rattle.numbers.specs.Types.{word_ref};
ghost use Rattle.filling.specs.Filling.{Put};
ghost use Rattle.values.specs.Values.{signed, word_name, value_text};

// Puts a number that is carried with a bias.
fn put_signed(out: &mut [u8], at: usize, bias: u32, v: u32) -> usize
    requires { at + 11 < 2 ^ 64 }
    ensures { Put (signed bias v) out.old at out.new result }
{
    if v < bias {
        filling::put_byte(out, at, b'-');
        return filling::put_decimal(out, at + 1, bias - v);
    }
    filling::put_decimal(out, at, v - bias)
}

// Puts a word: A01 to A08, W000 to W199, or a constant.
fn put_word(out: &mut [u8], at: usize, v: u32) -> usize
    requires { at + 11 < 2 ^ 64 }
    ensures { Put (word_name (word_ref v)) out.old at out.new result }
{
    match v {
        0..8 => names::put_numbered(out, at, b'A', 2, v + 1),
        8..208 => names::put_numbered(out, at, b'W', 3, v - 8),
        _ => put_signed(out, at, values::CONSTANT_BIAS, v),
    }
}

// Puts the value of a field of a type.
pub fn put_value(out: &mut [u8], at: usize, ty: u8, v: u32) -> usize
    requires { at + 11 < 2 ^ 64 }
    ensures { Put (value_text ty v) out.old at out.new result }
{
    match ty {
        numbers::PIN => names::put_name(out, at, v),
        numbers::WORD_PIN => put_word(out, at, v),
        _ => put_signed(out, at, values::bias_of(ty), v),
    }
}
