// The state: shown and set, a part at a time.
use crate::line_words::{byte, index, long, number, signed};
use image::State;
use std::io;

// Whether a state that is handed back is the given one.
pub fn change(given: &State, back: &State) -> &'static str {
    if given == back { "same" } else { "changed" }
}

// The commands that set a part of the state; any other leaves it.
pub fn set(line: &[u8], name: u8, state: &mut State) {
    match name {
        b'T' => state.time = number(line, 1),
        b'A' => state.alarms = long(line, 1),
        b'P' => {
            let place = &mut state.places[index(line, 200)];
            place.pins = byte(line, 2);
            place.out = number(line, 3) != 0;
            place.ticks = long(line, 4);
            place.word = signed(line, 5);
        }
        b'E' => {
            let entry = &mut state.journal.entries[index(line, 32)];
            entry.number = byte(line, 2);
            entry.stamp.time = number(line, 3);
        }
        b'H' => state.journal.held = number(line, 1) as usize,
        b'M' => state.journal.missed = number(line, 1),
        _ => {}
    }
}

// Command `b`: the place of a block.
pub fn show_place(rt: &impl Print, line: &[u8], state: &State) -> io::Result<()> {
    let k = index(line, 200);
    let place = state.places[k];
    println!(rt;
        "b {k} {} {} {} {}",
        place.pins,
        u8::from(place.out),
        place.ticks,
        place.word
    )
}

// Command `j`: an entry of the journal.
pub fn show_entry(rt: &impl Print, line: &[u8], state: &State) -> io::Result<()> {
    let k = index(line, 32);
    let entry = state.journal.entries[k];
    println!(rt; "j {k} {} {}", entry.number, entry.stamp.time)
}
