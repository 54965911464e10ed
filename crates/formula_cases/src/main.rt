// Every file that an argument names, under its name: a text on each line, and what it is answered as a formula.
// tests/formulas.py says how the lines are written, and writes the files and what is to be printed.
// Nothing but safety is promised here: what is read and answered is compared when the cases are run.
#![tactic(auto)]

ghost use Rattle.std.specs.Prelude.{◌<◌, length, IfSome};

use std::alloc::{AllocError, Global};
use std::fs::File;
use std::{env, io};

// The longest file.
const MOST_FILE: usize = 65536;

// The longest text of a line.
const MOST_TEXT: usize = 1000000;

// The value of a hexadecimal digit, or of a decimal one.
fn value(digit: u8) -> u8 {
    match digit {
        b'0'..=b'9' => digit - b'0',
        b'A'..=255 => digit - b'A' + 10,
        _ => 0,
    }
}

// A byte and how often it is to stand in a text, and what stands behind it in the line.
type Bytes<'a> = (u8, usize, &'a [u8]);

// The number `N` of `@N hh`, and what stands behind the space; none if there is no space.
fn times(line: &[u8]) -> Option<(usize, &[u8])>
    ensures { IfSome result (λ r. length r.1.now < length line.now) }
{
    let space = line.iter().position(|b| *b == b' ')?;
    let n = line[..space]
        .iter()
        .fold(0, |n, b| n % MOST_TEXT * 10 + usize::from(value(*b)));
    Some((n, &line[space + 1..]))
}

// The byte of two digits.
fn byte_of(count: usize, digits: &[u8]) -> Option<Bytes<'_>>
    ensures { IfSome result (λ r. length r.2.now < length digits.now) }
{
    match digits {
        [high, low, rest @ ..] => Some((value(*high) % 16 * 16 + value(*low) % 16, count, rest)),
        _ => None,
    }
}

// The bytes at the front of what is left of a line: one stands for itself, `\hh` for the byte of these two digits, and `@N hh`
// for N of them. There are none at the line's end, or if they are cut.
fn first_bytes(line: &[u8]) -> Option<Bytes<'_>>
    ensures { IfSome result (λ r. length r.2.now < length line.now) }
{
    match line {
        [b'\\', digits @ ..] => byte_of(1, digits),
        [b'@', rest @ ..] => {
            let (count, digits) = times(rest)?;
            byte_of(count, digits)
        }
        [byte, rest @ ..] => Some((*byte, 1, rest)),
        [] => None,
    }
}

// The text that a line stands for, held to the longest.
fn text_of(alloc: Global, line: &[u8]) -> Result<Vec<u8>, AllocError> {
    let mut text = Vec::new(alloc);
    let mut left = line;
    while let Some((byte, count, rest)) = first_bytes(left) {
        let size = text.len().saturating_add(count).min(MOST_TEXT);
        text.resize(size, byte)?;
        left = rest;
    }
    Ok(text)
}

// What a text is answered: refusal, place and count, then the nodes, and whatever stands behind them that is not 0.
fn answer(rt: &impl Print, text: &[u8]) -> io::Result<()> {
    let a = formula::read_formula(text);
    print!(rt; "{} {} {}", a.refusal, a.place, a.count)?;
    for (i, node) in a.nodes.iter().enumerate() {
        if i < usize::from(a.count) || *node != 0 {
            print!(rt; " {node}")?;
        }
    }
    println!(rt; "")
}

// Each line of a file; behind the last line end stands none.
fn cases(rt: &(impl Print + AllocGlobal), all: &[u8]) -> io::Result<()> {
    let mut left = all;
    while let Some(end) = left.iter().position(|b| *b == b'\n') {
        let text = text_of(rt.alloc(), &left[..end])?;
        answer(rt, &text)?;
        left = &left[end + 1..];
    }
    Ok(())
}

// The file of that name; one that cannot be opened is told of and passed over.
fn file(rt: &HostRuntime, name: &str) -> io::Result<()> {
    println!(rt; "== {name}")?;
    match File::open(rt, name) {
        Ok(mut opened) => {
            let mut all = [0u8; MOST_FILE];
            let size = reading::read_full(&mut opened, &mut all);
            cases(rt, &all[..size])
        }
        Err(error) => eprintln!(rt; "{name}: {error}"),
    }
}

// Each argument in turn.
fn main(rt: HostRuntime) -> io::Result<()> {
    for name in env::args(&rt)?.skip(1) {
        file(&rt, name.as_str())?;
    }
    Ok(())
}
