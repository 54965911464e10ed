// A listing imported to the bytes of the program that it stands for.
#![tactic(auto)]

ghost use Rattle.importing.specs.Imports.{Hands, Imports};

use exchange::Exchange;
use gathering::ROOM;

// Hands over a program, if it is accepted and has room.
fn hand_over(program: &[u8], out: &mut [u8]) -> Exchange
    ensures { Hands program.now out.old out.new result }
{
    let a = program::accept(program);
    if a.refusal != 0 {
        return exchange::refuse(a.refusal, a.place);
    }
    if out.len() < program.len() {
        return exchange::refuse(terms::SHORT_BUFFER, 0);
    }
    filling::put(out, 0, program);
    exchange::finish(program.len())
}

// Imports a listing: the bytes of its program stand at the front of the buffer then, or the buffer is as it was.
pub fn import_listing(text: &[u8], out: &mut [u8]) -> Exchange
    ensures { Imports text.now out.old out.new result }
{
    let mut room = [0u8; ROOM];
    match gathering::gather(text, &mut room[..]) {
        Ok(front) => hand_over(&room[front.from..front.to], out),
        Err(k) => exchange::refuse(terms::BAD_TEXT, k),
    }
}
