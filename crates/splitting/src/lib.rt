// A text line by line: where the line that begins at a place ends, and where the next one begins.
#![tactic(auto)]

ghost use Rattle.std.specs.Prelude.{◌≡◌, ◌≤◌, ◌==◌, length, position};
ghost use Rattle.splitting.specs.Splitting.{Splits};

// A line with its end: the place behind its last byte, and the place behind its end.
#[derive(Clone, Copy)]
pub struct Line {
    pub last: usize,
    pub next: usize,
}

// The place of the first LF of a text, if there is one.
fn first_feed(text: &[u8]) -> Option<usize>
    ensures { result ≡ position (λ b. b == 10) text.now }
{
    text.iter().position(|b| *b == b'\n')
}

// The line that begins at a place, if it has an end.
pub fn next_line(text: &[u8], at: usize) -> Option<Line>
    requires { at ≤ length text.now }
    ensures { Splits text.now at result }
{
    let p = at + first_feed(&text[at..])?;
    let last = if at < p && text[p - 1] == b'\r' {
        p - 1
    } else {
        p
    };
    Some(Line { last, next: p + 1 })
}
