// The controller by value: a state is handed in and handed back. Each call puts it into arrays and is the call in place on them.
#![tactic(auto)]

ghost use Rattle.std.specs.Prelude.{◌≡◌, ◌≤◌};
ghost use Rattle.program.specs.Acceptance.{accepted};
ghost use Rattle.scanning.specs.Scan.{inputs};
ghost use Rattle.calls.specs.Calls.{scan_of, take_of};

use calls::{Handed, Scanned};
use image::State;

// One scan of a program.
// Kept: arrays of fixed size, here and in `take` (fixed memory).
pub fn scan(program: &[u8], state: State, elapsed: u16, bits: u32, words: [i16; 8]) -> Scanned
    ensures value { result ≡ scan_of program.now (inputs elapsed bits words) state }
    ensures bounded { result.steps ≤ (accepted program.now).steps }
{
    let mut counts = [0u64; 4];
    let mut times = [0u64; 32];
    let mut numbers = [0u8; 32];
    let mut ticks = [0u32; 200];
    let mut own = [0i16; 200];
    let mut pins = [0u8; 200];
    let mut outputs = [0u8; 200];
    states::put_state(
        state,
        &mut counts,
        &mut times,
        &mut numbers,
        &mut ticks,
        &mut own,
        &mut pins,
        &mut outputs,
    );
    let a = console::scan_in(
        program,
        &mut counts,
        &mut times,
        &mut numbers,
        &mut ticks,
        &mut own,
        &mut pins,
        &mut outputs,
        elapsed,
        bits,
        words,
    );
    Scanned {
        state: states::state_in(&counts, &times, &numbers, &ticks, &own, &pins, &outputs),
        refusal: a.refusal,
        place: a.place,
        alarms: a.alarms,
        steps: a.steps,
        rises: a.rises,
    }
}

// Hands out the oldest entry of the journal.
pub fn take(state: State) -> Handed
    ensures { result ≡ take_of state }
{
    let mut counts = [0u64; 4];
    let mut times = [0u64; 32];
    let mut numbers = [0u8; 32];
    let mut ticks = [0u32; 200];
    let mut words = [0i16; 200];
    let mut pins = [0u8; 200];
    let mut outputs = [0u8; 200];
    states::put_state(
        state,
        &mut counts,
        &mut times,
        &mut numbers,
        &mut ticks,
        &mut words,
        &mut pins,
        &mut outputs,
    );
    let a = console::take_in(
        &mut counts,
        &mut times,
        &mut numbers,
        &ticks,
        &words,
        &pins,
        &outputs,
    );
    let e = a.entry;
    Handed {
        state: states::state_in(&counts, &times, &numbers, &ticks, &words, &pins, &outputs),
        refusal: a.refusal,
        found: a.found,
        entry: e,
    }
}
