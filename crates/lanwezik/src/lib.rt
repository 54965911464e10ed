// The controller's calls as a program in C makes them: the crate `lanwezik_c` exports each under its name, and include/lanwezik.h has their declarations.
#![tactic(auto)]

ghost use Rattle.std.specs.Prelude.{◌≡◌};
ghost use Rattle.program.specs.Acceptance.{accepted};
ghost use Rattle.image.specs.Image.{columns, image, image_of};
ghost use Rattle.image.specs.Lent.{log_before, log_after, before, after};
ghost use Rattle.image.specs.State.{fresh_state};
ghost use Rattle.calls.specs.InPlace.{scanned_in, after_scan, taken_in, after_take};
ghost use Rattle.lanwezik.specs.Answers.{acceptance, scanned, given, expression, inputs_of, Formulas};

use calls::{ScanAnswer, TakeAnswer};

// Number of refusal and place, memory and step figure.
// Kept: the C interface, its fields are those of include/lanwezik.h.
#[repr(C)]
#[derive(Drop)]
pub struct Acceptance {
    pub refusal: u32,
    pub memory: u32,
    pub steps: u32,
    pub place: u64,
}

impl From<program::Acceptance> for Acceptance {
    ghost from_gives = { λ a c. c ≡ acceptance a };

    fn from(a: program::Acceptance) -> Acceptance {
        Acceptance {
            refusal: u32::from(a.refusal),
            memory: a.memory,
            steps: a.steps,
            place: a.place as u64,
        }
    }
}

// The inputs of a scan: 32 bits, elapsed ticks, eight analog words.
#[repr(C)]
#[derive(Drop)]
pub struct Inputs {
    pub bits: u32,
    pub elapsed: u16,
    pub analogs: [i16; 8],
}

// Number of refusal and place, alarm word, steps, rises.
// Kept: the C interface, its fields are those of include/lanwezik.h.
#[repr(C)]
#[derive(Drop)]
pub struct Scanned {
    pub refusal: u32,
    pub alarms: u32,
    pub steps: u32,
    pub rises: u32,
    pub place: u64,
}

impl From<ScanAnswer> for Scanned {
    ghost from_gives = { λ a c. c ≡ scanned a };

    fn from(a: ScanAnswer) -> Scanned {
        Scanned {
            refusal: u32::from(a.refusal),
            alarms: a.alarms,
            steps: a.steps,
            rises: a.rises,
            place: a.place as u64,
        }
    }
}

// Number of refusal; 1 if an entry was found, and then its alarm number and time.
// Kept: the C interface, its fields are those of include/lanwezik.h.
#[repr(C)]
#[derive(Drop)]
pub struct Given {
    pub refusal: u32,
    pub found: u32,
    pub number: u32,
    pub time: u64,
}

impl From<TakeAnswer> for Given {
    ghost from_gives = { λ a c. c ≡ given a };

    fn from(a: TakeAnswer) -> Given {
        Given {
            refusal: u32::from(a.refusal),
            found: u32::from(a.found),
            number: u32::from(a.entry.number),
            time: a.entry.stamp.time,
        }
    }
}

// Number of refusal, and how many node numbers there are; place; the node numbers, operator first, and zeros behind them.
// Kept: the C interface, its fields are those of include/lanwezik.h.
#[repr(C)]
#[derive(Drop)]
pub struct Expression {
    pub refusal: u32,
    pub count: u32,
    pub place: u64,
    pub nodes: [u8; 64],
}

impl From<formula::Expression> for Expression {
    ghost from_gives = { λ a c. c ≡ expression a };

    fn from(a: formula::Expression) -> Expression {
        let nodes = a.nodes;
        Expression {
            refusal: u32::from(a.refusal),
            count: u32::from(a.count),
            place: a.place as u64,
            nodes,
        }
    }
}

pub fn lanwezik_accept(program: &[u8]) -> Acceptance
    ensures { result ≡ acceptance (accepted program.now) }
{
    program::accept(program).into()
}

pub fn lanwezik_fresh_in(
    counts: &mut [u64; 4],
    times: &mut [u64; 32],
    numbers: &mut [u8; 32],
    ticks: &mut [u32; 200],
    words: &mut [i16; 200],
    pins: &mut [u8; 200],
    outputs: &mut [u8; 200],
)
    ensures { after counts times numbers ticks words pins outputs ≡ image_of fresh_state }
{
    image::fresh_in(counts, times, numbers, ticks, words, pins, outputs);
}

pub fn lanwezik_scan_in(
    program: &[u8],
    counts: &mut [u64; 4],
    times: &mut [u64; 32],
    numbers: &mut [u8; 32],
    ticks: &mut [u32; 200],
    words: &mut [i16; 200],
    pins: &mut [u8; 200],
    outputs: &mut [u8; 200],
    inputs: Inputs,
) -> Scanned
    ensures value { result ≡ scanned (scanned_in program.now (inputs_of inputs) (before counts times numbers ticks words pins outputs)) }
    ensures after { after counts times numbers ticks words pins outputs
        ≡ after_scan program.now (inputs_of inputs) (before counts times numbers ticks words pins outputs) }
{
    let analogs = inputs.analogs;
    console::scan_in(
        program,
        counts,
        times,
        numbers,
        ticks,
        words,
        pins,
        outputs,
        inputs.elapsed,
        inputs.bits,
        analogs,
    )
    .into()
}

pub fn lanwezik_take_in(
    counts: &mut [u64; 4],
    times: &mut [u64; 32],
    numbers: &mut [u8; 32],
    ticks: &[u32; 200],
    words: &[i16; 200],
    pins: &[u8; 200],
    outputs: &[u8; 200],
) -> Given
    ensures value { result ≡ given (taken_in (image (log_before counts times numbers) (columns ticks.now words.now pins.now outputs.now))) }
    ensures after { image (log_after counts times numbers) (columns ticks.exit.now words.exit.now pins.exit.now outputs.exit.now)
        ≡ after_take (image (log_before counts times numbers) (columns ticks.now words.now pins.now outputs.now)) }
{
    console::take_in(counts, times, numbers, ticks, words, pins, outputs).into()
}

pub fn lanwezik_formula(text: &[u8]) -> Expression
    ensures { Formulas text.now result }
{
    formula::read_formula(text).into()
}
