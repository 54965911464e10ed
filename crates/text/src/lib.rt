// Text put into a buffer: bytes at a place, and numbers in decimal.
#![tactic(auto)]

ghost use Rattle.std.specs.Prelude.{[], ◌∷◌, ◌++◌, ◌+◌, ◌≤◌, length};
ghost use Rattle.text.specs.Text.{decimal, Put};

// Puts text at a place, and answers the place after it.
pub fn put(out: &mut [u8], at: usize, text: &[u8]) -> usize
    requires { at + length text.now ≤ length out.old }
    ensures { Put text.now out.old at out.new result }
{
    out[at..at + text.len()].copy_from_slice(text);
    at + text.len()
}

// Puts a number in decimal and the byte that ends it.
pub fn put_number(out: &mut [u8], at: usize, n: u64, end: u8) -> usize
    requires { at + 21 ≤ length out.old }
    ensures { Put (decimal n ++ (end ∷ [])) out.old at out.new result }
{
    let mut text = [0u8; 20];
    let k = io::decimal(n, &mut text);
    let next = put(out, at, &text[..k]);
    out[next] = end;
    next + 1
}
