// What a recording comes to: its program, and its scans one after the other. Nothing is printed here.
#![tactic(auto)]

ghost use Rattle.std.specs.Prelude.{◌≡◌, ◌≤◌, length};
ghost use Rattle.recording.specs.Recording.{program_bytes, scan_at};
ghost use Rattle.playback.specs.Playback.{turn_of, opening_in};
ghost use Rattle.playback.specs.Answers.{halt_of, turned, OpenedIn};

use calls::Scanned;
use image::State;
use recording::Lack;
use text::put;

// Why a recording does not go on: its program or a scan is refused, is bad, or is not all there.
#[derive(Clone, Copy, Debug, PartialEq, Eq)]
pub enum Halt {
    Refused(u8, usize),
    Bad,
    Waits,
}

impl From<Lack> for Halt {
    ghost from_gives = { λ e k. k ≡ halt_of e };

    fn from(e: Lack) -> Halt {
        match e {
            Lack::Bad => Halt::Bad,
            Lack::Cut => Halt::Waits,
        }
    }
}

// The turn of the scan at a place: its answer and the place after it, if it was run.
pub fn next_scan(
    s: &[u8],
    at: usize,
    program: &[u8],
    state: State,
) -> Result<(Scanned, usize), Halt>
    ensures { result ≡ turned (turn_of program.now state (scan_at s.now at)) }
{
    let r = recording::read_scan(s, at)?;
    let a = hall::scan(program, state, r.elapsed, r.bits, r.words);
    if a.refusal != 0 {
        return Err(Halt::Refused(a.refusal, a.place));
    }
    Ok((a, r.next))
}

// Opens a recording: accepts its program, and copies it out. Answers how long it is, and the place after it.
pub fn open_recording(s: &[u8], program: &mut [u8]) -> Result<(usize, usize), Halt>
    requires { program_bytes ≤ length program.old }
    ensures { OpenedIn (opening_in s.now) program.old program.new result }
{
    let (size, at) = recording::read_head(s)?;
    let next = at + size;
    let a = program::accept(&s[at..next]);
    if a.refusal != 0 {
        return Err(Halt::Refused(a.refusal, a.place));
    }
    put(program, 0, &s[at..next]);
    Ok((size, next))
}
