// A program exported as a listing.
#![tactic(auto)]

ghost use Rattle.std.specs.Prelude.{◌≡◌, length};
ghost use Rattle.wire.specs.Reading.{IsGot};
ghost use Rattle.filling.specs.Filling.{Put};
ghost use Rattle.program.specs.Program.{program_at};
ghost use Rattle.program.specs.Acceptance.{every_block};
ghost use Rattle.exporting.specs.Texts.{listed_in};
ghost use Rattle.exporting.specs.Exported.{exported, exported_into};

use exchange::Exchange;

// Puts the lines of a whole program, read by the marks of its blocks.
fn put_lines(s: &[u8], marks: &[u8; 200], out: &mut [u8]) -> usize
    requires { IsGot (program_at marks.now s.now) }
    ensures { Put (listed_in (program_at marks.now s.now)) out.old 0 out.new result }
{
    let n = known::read_known(s, 0, numbers::BLOCK_COUNT, marks);
    let count = n.number as u8;
    let mut at = n.next;
    let mut to: usize = 0;
    for i in 0..count {
        let line = listing::put_line(s, at, i, marks, out, to);
        at = line.next;
        to = line.to;
    }
    alarms::put_alarms(s, at, marks, out, to)
}

// Puts the listing of a program, as far as the buffer has places, and answers its length.
fn put_listing(program: &[u8], out: &mut [u8]) -> usize
    requires { IsGot (program_at every_block program.now) }
    ensures { Put (listed_in (program_at every_block program.now)) out.old 0 out.new result }
{
    let every = [2u8; 200];
    put_lines(program, &every, out)
}

// The length of the listing of a program.
fn measure(program: &[u8]) -> usize
    requires { IsGot (program_at every_block program.now) }
    ensures { result ≡ length (listed_in (program_at every_block program.now)) }
{
    let mut none = [0u8; 1];
    put_listing(program, &mut none[..0])
}

// Exports a program: its listing stands at the front of the buffer, or the program is refused, or the buffer is too short, and is left as it was.
pub fn export_program(program: &[u8], out: &mut [u8]) -> Exchange
    ensures { (result ≡ exported program.now out.old) × (out.new ≡ exported_into program.now out.old) }
{
    let a = program::accept(program);
    if a.refusal != 0 {
        return exchange::refuse(a.refusal, a.place);
    }
    let length = measure(program);
    if out.len() < length {
        return exchange::refuse(terms::SHORT_BUFFER, 0);
    }
    put_listing(program, out);
    exchange::finish(length)
}
