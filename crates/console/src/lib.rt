// The calls on a state that a console keeps in arrays: written in place, or left as it is by a refusal.
#![tactic(auto)]

ghost use Rattle.std.specs.Prelude.{◌≡◌};
ghost use Rattle.image.specs.Image.{columns, image};
ghost use Rattle.image.specs.Lent.{log_before, log_after, before, after};
ghost use Rattle.scanning.specs.Scan.{inputs};
ghost use Rattle.calls.specs.InPlace.{scanned_in, after_scan, taken_in, after_take};

use calls::{ScanAnswer, TakeAnswer};
use journal::{Entry, Stamp};

// One scan of a program.
pub fn scan_in(
    program: &[u8],
    counts: &mut [u64; 4],
    times: &mut [u64; 32],
    numbers: &mut [u8; 32],
    ticks: &mut [u32; 200],
    words: &mut [i16; 200],
    pins: &mut [u8; 200],
    outputs: &mut [u8; 200],
    elapsed: u16,
    bits: u32,
    analogs: [i16; 8],
) -> ScanAnswer
    ensures value { result ≡ scanned_in program.now (inputs elapsed bits analogs) (before counts times numbers ticks words pins outputs) }
    ensures after { after counts times numbers ticks words pins outputs
        ≡ after_scan program.now (inputs elapsed bits analogs) (before counts times numbers ticks words pins outputs) }
{
    image::columns_sized(ticks, words, pins, outputs);
    if !inspection::good(counts, times, numbers, ticks, words, pins, outputs) {
        return calls::refuse_after(program, terms::BAD_STATE);
    }
    if inspection::is_late(elapsed, counts[0], counts[1]) {
        return calls::refuse_after(program, terms::TOO_FAR);
    }
    let Some(a) = scanning::run(program, elapsed, bits, analogs, ticks, words, pins, outputs) else {
        return calls::refuse_after(program, terms::BAD_STATE);
    };
    let stamp = Stamp {
        time: counts[0] + u64::from(elapsed),
    };
    let rises = log_book::close(stamp, a.alarms, counts, times, numbers);
    ScanAnswer {
        refusal: 0,
        place: 0,
        alarms: a.alarms,
        steps: a.steps,
        rises,
    }
}

// Hands out the oldest entry of the journal.
pub fn take_in(
    counts: &mut [u64; 4],
    times: &mut [u64; 32],
    numbers: &mut [u8; 32],
    ticks: &[u32; 200],
    words: &[i16; 200],
    pins: &[u8; 200],
    outputs: &[u8; 200],
) -> TakeAnswer
    ensures value { result ≡ taken_in (image (log_before counts times numbers) (columns ticks.now words.now pins.now outputs.now)) }
    ensures after { image (log_after counts times numbers) (columns ticks.exit.now words.exit.now pins.exit.now outputs.exit.now)
        ≡ after_take (image (log_before counts times numbers) (columns ticks.now words.now pins.now outputs.now)) }
{
    image::columns_sized(ticks, words, pins, outputs);
    if !inspection::good(counts, times, numbers, ticks, words, pins, outputs) {
        return calls::refuse_take();
    }
    let oldest = log_book::hand_out(counts, times, numbers);
    TakeAnswer {
        refusal: 0,
        found: oldest.is_some(),
        entry: oldest.unwrap_or(Entry::zero()),
    }
}
