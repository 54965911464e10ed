// Numbers of a program put into a lent buffer as bytes, as far as it has places.
#![tactic(auto)]

ghost use Rattle.std.specs.Prelude.{◌∷◌, ◌+◌, ◌*◌, ◌<◌, ◌^◌, length};
ghost use Rattle.filling.specs.Filling.{Put};
ghost use Rattle.wire.specs.Number.{groups_of};
ghost use Rattle.writing.specs.Expressions.{bytes_of};
ghost use Rattle.storing.specs.Each.{PutEach};

use filling::put_byte;

// No number has more groups.
const MOST_GROUPS: usize = 3;

// Puts a number at a place, in its groups, lowest first, and answers the place after it.
pub fn put_number(out: &mut [u8], at: usize, v: u32) -> usize
    requires { at + 3 < 2 ^ 64 }
    ensures { Put (groups_of 3 v) out.old at out.new result }
{
    let mut left = v;
    for i in 0..MOST_GROUPS {
        if left < 128 {
            put_byte(out, at + i, left as u8);
            return at + i + 1;
        }
        put_byte(out, at + i, 128 + ((left % 128) as u8));
        left /= 128;
    }
    at + MOST_GROUPS
}

// Puts values one after the other, each as the number that a function makes of it.
fn put_each<T: Copy, F: Fn(T) -> u32>(
    out: &mut [u8],
    at: usize,
    values: &[T],
    number_of: F,
) -> usize
    requires callable { F.IsAlwaysCallable number_of }
    requires room { at + 3 * length values.now < 2 ^ 64 }
    ensures { PutEach (F.post number_of) values.now out.old at out.new result }
{
    let mut p = at;
    for value in values {
        p = put_number(out, p, number_of(*value));
    }
    p
}

// Puts numbers one after the other.
pub fn put_numbers(out: &mut [u8], at: usize, numbers: &[u32]) -> usize
    requires { at + 3 * length numbers.now < 2 ^ 64 }
    ensures { Put (bytes_of numbers.now) out.old at out.new result }
{
    put_each(out, at, numbers, |number| number)
}

// Puts the numbers of an expression's nodes, operator first.
pub fn put_nodes(out: &mut [u8], at: usize, nodes: &[u8]) -> usize
    requires { at + 3 * length nodes.now < 2 ^ 64 }
    ensures { Put (bytes_of nodes.now) out.old at out.new result }
{
    put_each(out, at, nodes, |node| u32::from(node))
}

// Puts a block: its kind, and then the numbers of its fields.
pub fn put_row(out: &mut [u8], at: usize, kind: u8, fields: &[u32]) -> usize
    requires { at + 3 + 3 * length fields.now < 2 ^ 64 }
    ensures { Put (bytes_of (kind ∷ fields.now)) out.old at out.new result }
{
    let p = put_number(out, at, u32::from(kind));
    put_numbers(out, p, fields)
}
