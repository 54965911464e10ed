// A state put into the arrays of its image, and taken out of them.
#![tactic(auto)]

mod places;

ghost use Rattle.std.specs.Prelude.{◌≡◌, ◌^◌, ◌<◌};
ghost use Rattle.image.specs.Image.{log, columns, image, alarms_in, state_in, image_of};
ghost use Rattle.image.specs.Lent.{after};

use image::State;

// Puts a state into arrays.
pub fn put_state(
    state: State,
    counts: &mut [u64; 4],
    times: &mut [u64; 32],
    numbers: &mut [u8; 32],
    ticks: &mut [u32; 200],
    words: &mut [i16; 200],
    pins: &mut [u8; 200],
    outputs: &mut [u8; 200],
)
    ensures { after counts times numbers ticks words pins outputs ≡ image_of state }
{
    *counts = [state.time, 0, 0, u64::from(state.alarms)];
    image::put_journal(state.journal, counts, times, numbers);
    places::put_places(state.places, ticks, words, pins, outputs);
}

// The state of arrays.
pub fn state_in(
    counts: &[u64; 4],
    times: &[u64; 32],
    numbers: &[u8; 32],
    ticks: &[u32; 200],
    words: &[i16; 200],
    pins: &[u8; 200],
    outputs: &[u8; 200],
) -> State
    requires { alarms_in (log counts.now times.now numbers.now) < 2 ^ 32 }
    ensures { result ≡ state_in (image (log counts.now times.now numbers.now) (columns ticks.now words.now pins.now outputs.now)) }
{
    State {
        places: places::places_in(ticks, words, pins, outputs),
        time: counts[0],
        alarms: counts[3] as u32,
        journal: image::journal_in(counts, times, numbers),
    }
}
