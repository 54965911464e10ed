// What the calls answer: by value, and where the state is kept in arrays; and the answers that refuse.
#![tactic(auto)]

ghost use Rattle.std.specs.Prelude.{◌≡◌};
ghost use Rattle.program.specs.Acceptance.{accepted};
ghost use Rattle.calls.specs.InPlace.{refused_answer, refused_taken, refused_after};

use image::State;
use journal::Entry;

// The answer of a scan: the state, number of refusal and place (0 and 0 if there is none), alarm word, steps, rises.
#[derive(Clone, Copy)]
pub struct Scanned {
    pub state: State,
    pub refusal: u8,
    pub place: usize,
    pub alarms: u32,
    pub steps: u32,
    pub rises: u32,
}

// The answer of a take: the state, number of refusal, and the entry if one was found.
#[derive(Drop)]
pub struct Handed {
    pub state: State,
    pub refusal: u8,
    pub found: bool,
    pub entry: Entry,
}

// The same answers where the state is kept in arrays.
#[derive(Drop)]
pub struct ScanAnswer {
    pub refusal: u8,
    pub place: usize,
    pub alarms: u32,
    pub steps: u32,
    pub rises: u32,
}

#[derive(Drop)]
pub struct TakeAnswer {
    pub refusal: u8,
    pub found: bool,
    pub entry: Entry,
}

// A scan that is refused.
fn refuse(no: u8, at: usize) -> ScanAnswer
    ensures { result ≡ refused_answer no at }
{
    ScanAnswer {
        refusal: no,
        place: at,
        alarms: 0,
        steps: 0,
        rises: 0,
    }
}

// A scan that is refused for its program if that is not accepted, else with a number of its own.
pub fn refuse_after(program: &[u8], no: u8) -> ScanAnswer
    ensures { result ≡ refused_after (accepted program.now) no }
{
    let a = program::accept(program);
    if a.refusal != 0 {
        return refuse(a.refusal, a.place);
    }
    refuse(no, 0)
}

// A take that is refused.
pub fn refuse_take() -> TakeAnswer
    ensures { result ≡ refused_taken }
{
    TakeAnswer {
        refusal: terms::BAD_STATE,
        found: false,
        entry: Entry::zero(),
    }
}
