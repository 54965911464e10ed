// Every file that an argument names, under its name: a line for each case in it, with the answer and a sum of the buffer that was lent.
// tests/listings.py says how the cases are written, and writes the files and what is to be printed.
// Nothing but safety is promised here: what is read and answered is compared when the cases are run.
#![tactic(auto)]

ghost use Rattle.std.specs.Prelude.{◌<◌, length, IfSome};

use exchange::Exchange;
use std::fs::File;
use std::{env, io};

// The longest file.
const MOST_FILE: usize = 262144;

// The most room that a case asks for.
const MOST_ROOM: usize = 40000;

// The prime that Adler-32 counts by.
const PRIME: u32 = 65521;

// What the cases of a file ask for.
#[derive(Clone, Copy)]
enum Way {
    Import,
    Export,
}

impl Way {
    // A file whose name begins with `i` has listings to import, any other has programs to export.
    fn of(name: &str) -> Way {
        if name.starts_with('i') {
            Way::Import
        } else {
            Way::Export
        }
    }

    // Imports or exports some bytes into a buffer.
    fn exchange(self, bytes: &[u8], out: &mut [u8]) -> Exchange {
        match self {
            Way::Import => importing::import_listing(bytes, out),
            Way::Export => exporting::export_program(bytes, out),
        }
    }
}

// How much room is lent, and the listing or program.
#[derive(Clone, Copy)]
struct Case<'a> {
    room: usize,
    bytes: &'a [u8],
}

// The case at the front of what is left of a file, and what stands behind it: room and size are four bytes each, lowest first.
// There is none if it is cut or asks for too much.
fn first_case(left: &[u8]) -> Option<(Case<'_>, &[u8])>
    ensures { IfSome result (λ r. length r.1.now < length left.now) }
{
    let [a, b, c, d, e, f, g, h, behind @ ..] = left else {
        return None;
    };
    let room = u32::from_le_bytes([*a, *b, *c, *d]) as usize;
    let size = u32::from_le_bytes([*e, *f, *g, *h]) as usize;
    if room > MOST_ROOM || size > behind.len() {
        return None;
    }
    let (bytes, rest) = behind.split_at(size);
    Some((Case { room, bytes }, rest))
}

// Adler-32 of some bytes.
fn sum(bytes: &[u8]) -> u32 {
    let mut low: u32 = 1;
    let mut high: u32 = 0;
    for byte in bytes {
        low = (low + u32::from(*byte)) % PRIME;
        high = (high + low) % PRIME;
    }
    high * 65536 + low
}

// The line of a case: refusal, place, length, and the sum of the whole buffer afterwards, each byte of which was A5.
fn answer(rt: &(impl Print + AllocGlobal), way: Way, case: Case<'_>) -> io::Result<()> {
    let mut out = vec![in rt.alloc(); 0xA5u8; case.room]?;
    let a = way.exchange(case.bytes, &mut out);
    println!(rt; "{} {} {} {}", a.refusal, a.place, a.length, sum(&out))
}

// Each case of a file.
fn cases(rt: &(impl Print + AllocGlobal), way: Way, all: &[u8]) -> io::Result<()> {
    let mut left = all;
    while let Some((case, rest)) = first_case(left) {
        answer(rt, way, case)?;
        left = rest;
    }
    Ok(())
}

// The file of that name; one that cannot be opened is told of and passed over.
fn file(rt: &HostRuntime, name: &str) -> io::Result<()> {
    println!(rt; "== {name}")?;
    match File::open(rt, name) {
        Ok(mut opened) => {
            let mut all = [0u8; MOST_FILE];
            let size = reading::read_full(&mut opened, &mut all);
            cases(rt, Way::of(name), &all[..size])
        }
        Err(error) => eprintln!(rt; "{name}: {error}"),
    }
}

// Each argument in turn.
fn main(rt: HostRuntime) -> io::Result<()> {
    for name in env::args(&rt)?.skip(1) {
        file(&rt, name.as_str())?;
    }
    Ok(())
}
