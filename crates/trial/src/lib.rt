// The trial of a program: read once, its blocks take their turns as they are read, and at the end it is known whether it is accepted.
#![tactic(auto)]

mod alarms;

ghost use Rattle.std.specs.Prelude.{◌++◌, ◌≡◌, ◌≤◌, drop, replicate};
ghost use Rattle.program.specs.Program.{after_count};
ghost use Rattle.program.specs.Trial.{first_blocks};
ghost use Rattle.turns.specs.Arrays.{arrays_before, arrays_after, turned_while};
ghost use Rattle.trial.specs.Trial.{no_trial, trial_of};

// Marks the first n blocks as being there.
fn mark_first(n: u32, marks: &mut [u8; 200])
    requires { n ≤ 200 }
    ensures { marks.new ≡ replicate n 2 ++ drop n marks.old }
{
    marks[..n as usize].fill(2);
}

// The steps and the alarm word of a program that is accepted.
#[derive(Drop)]
pub struct Trial {
    pub steps: u32,
    pub alarms: u32,
}

// The trial of a program that is not accepted: none.
pub fn refused() -> Option<Trial>
    ensures { result ≡ no_trial }
{
    None
}

// Tries a program whose n blocks stand from `start` on; none if it is not accepted.
pub fn try_program(
    program: &[u8],
    start: usize,
    n: u32,
    elapsed: u16,
    bits: &mut [bool; 234],
    words: &mut [i16; 208],
    ticks: &mut [u32; 200],
    pins: &mut [u8; 200],
) -> Option<Trial>
    requires { n ≤ 200 }
    ensures value { result ≡ trial_of elapsed (arrays_before bits words ticks pins) (after_count (first_blocks n) n program.now start) }
    ensures after { arrays_after bits words ticks pins
        ≡ turned_while elapsed (first_blocks n) n program.now start (arrays_before bits words ticks pins) }
{
    let mut marks = [0u8; 200];
    mark_first(n, &mut marks);
    let r = turns::turns(program, start, n, elapsed, &marks, bits, words, ticks, pins)?;
    if !r.good {
        return refused();
    }
    let alarms = alarms::alarms(program, r.next, bits, &marks)?;
    Some(Trial {
        steps: r.steps,
        alarms,
    })
}
