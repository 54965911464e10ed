// The controller's calls for programs in C, each the call of `lanwezik` of its name: include/lanwezik.h has their declarations.
#![tactic(auto)]

ghost use Rattle.std.specs.Prelude.{◌≡◌};
ghost use Rattle.program.specs.Acceptance.{accepted};
ghost use Rattle.image.specs.Image.{columns, image, image_of};
ghost use Rattle.image.specs.Lent.{log_before, log_after, before, after};
ghost use Rattle.image.specs.State.{fresh_state};
ghost use Rattle.calls.specs.InPlace.{scanned_in, after_scan, taken_in, after_take};
ghost use Rattle.lanwezik.specs.Answers.{acceptance, scanned, given, inputs_of, Formulas};

use lanwezik::{Acceptance, Expression, Given, Inputs, Scanned};

#[unsafe(no_mangle)]
pub extern "C" fn lanwezik_accept(program: &[u8]) -> Acceptance
    ensures { result ≡ acceptance (accepted program.now) }
{
    lanwezik::lanwezik_accept(program)
}

#[unsafe(no_mangle)]
pub extern "C" fn lanwezik_fresh_in(
    counts: &mut [u64; 4],
    times: &mut [u64; 32],
    numbers: &mut [u8; 32],
    ticks: &mut [u32; 200],
    words: &mut [i16; 200],
    pins: &mut [u8; 200],
    outputs: &mut [u8; 200],
)
    ensures { after counts times numbers ticks words pins outputs ≡ image_of fresh_state }
{
    lanwezik::lanwezik_fresh_in(counts, times, numbers, ticks, words, pins, outputs);
}

#[unsafe(no_mangle)]
pub extern "C" fn lanwezik_scan_in(
    program: &[u8],
    counts: &mut [u64; 4],
    times: &mut [u64; 32],
    numbers: &mut [u8; 32],
    ticks: &mut [u32; 200],
    words: &mut [i16; 200],
    pins: &mut [u8; 200],
    outputs: &mut [u8; 200],
    inputs: Inputs,
) -> Scanned
    ensures value { result ≡ scanned (scanned_in program.now (inputs_of inputs) (before counts times numbers ticks words pins outputs)) }
    ensures after { after counts times numbers ticks words pins outputs
        ≡ after_scan program.now (inputs_of inputs) (before counts times numbers ticks words pins outputs) }
{
    lanwezik::lanwezik_scan_in(
        program, counts, times, numbers, ticks, words, pins, outputs, inputs,
    )
}

#[unsafe(no_mangle)]
pub extern "C" fn lanwezik_take_in(
    counts: &mut [u64; 4],
    times: &mut [u64; 32],
    numbers: &mut [u8; 32],
    ticks: &[u32; 200],
    words: &[i16; 200],
    pins: &[u8; 200],
    outputs: &[u8; 200],
) -> Given
    ensures value { result ≡ given (taken_in (image (log_before counts times numbers) (columns ticks.now words.now pins.now outputs.now))) }
    ensures after { image (log_after counts times numbers) (columns ticks.exit.now words.exit.now pins.exit.now outputs.exit.now)
        ≡ after_take (image (log_before counts times numbers) (columns ticks.now words.now pins.now outputs.now)) }
{
    lanwezik::lanwezik_take_in(counts, times, numbers, ticks, words, pins, outputs)
}

#[unsafe(no_mangle)]
pub extern "C" fn lanwezik_formula(text: &[u8]) -> Expression
    ensures { Formulas text.now result }
{
    lanwezik::lanwezik_formula(text)
}
