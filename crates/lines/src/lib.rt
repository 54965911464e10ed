// The lines that are printed for a recording, put into a buffer.
#![tactic(auto)]

ghost use Rattle.std.specs.Prelude.{◌+◌, ◌≤◌, length};
ghost use Rattle.text.specs.Text.{Put};
ghost use Rattle.lines.specs.Lines.{line_bytes, line_with, refused_line, bad_scan, bad_program};

use text::{put, put_number};

// Puts the line of a scan.
pub fn write_line(
    out: &mut [u8],
    at: usize,
    time: u64,
    steps: u32,
    held: usize,
    missed: u64,
) -> usize
    requires { at + line_bytes ≤ length out.old }
    ensures { Put (line_with time steps held missed) out.old at out.new result }
{
    let a = put_number(out, at, time, b' ');
    let b = put_number(out, a, u64::from(steps), b' ');
    let c = put_number(out, b, held as u64, b' ');
    put_number(out, c, missed, b'\n')
}

// Puts the line of a refusal.
pub fn write_refused(out: &mut [u8], at: usize, n: u8, place: usize) -> usize
    requires { at + line_bytes ≤ length out.old }
    ensures { Put (refused_line n place) out.old at out.new result }
{
    let a = put(out, at, b"refused ");
    let b = put_number(out, a, u64::from(n), b' ');
    let c = put(out, b, b"at ");
    put_number(out, c, place as u64, b'\n')
}

// Puts `bad scan`.
// Kept: one call of `put` each, and one function for both texts would be no plainer: its callers would hand it the text.
pub fn write_bad_scan(out: &mut [u8], at: usize) -> usize
    requires { at + line_bytes ≤ length out.old }
    ensures { Put bad_scan out.old at out.new result }
{
    put(out, at, b"bad scan\n")
}

// Puts `bad program`.
pub fn write_bad_program(out: &mut [u8], at: usize) -> usize
    requires { at + line_bytes ≤ length out.old }
    ensures { Put bad_program out.old at out.new result }
{
    put(out, at, b"bad program\n")
}
