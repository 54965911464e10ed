// The turns of a program's blocks, on arrays, as they are read; at their end it is known whether they pass their trial.
#![tactic(auto)]

ghost use Rattle.std.specs.Prelude.{◌≡◌, ◌≤◌};
ghost use Rattle.program.specs.Program.{blocks_at};
ghost use Rattle.program.specs.Trial.{all_answer};
ghost use Rattle.turns.specs.Arrays.{arrays_before, arrays_after, ran_of, turned_while};

use place::Place;

// Whether each of the first n blocks that is asked for its word has one.
fn all_answer(n: u32, asked: &[u8; 200], own: &[u8; 200]) -> bool
    requires { n ≤ 200 }
    ensures { result ≡ all_answer n asked.now own.now }
{
    // counted, and both looked at whatever they are, so that the compiler looks at many at once
    let mut silent: u32 = 0;
    for i in 0..(n as usize) {
        let asks = (asked[i] != 0) as u8;
        let wordless = (own[i] != 2) as u8;
        if asks + wordless == 2 {
            silent += 1;
        }
    }
    silent == 0
}

// Whether blocks that were read pass their trial, their steps, and the place after them.
// Kept: what may not change, `turns` tells steps and place of blocks that fail their trial too.
#[derive(Drop)]
pub struct Ran {
    pub good: bool,
    pub steps: u32,
    pub next: usize,
}

// The turns of n blocks from `start` on, in ascending number; none if they cannot be read. `marks` says which blocks may be referred to.
pub fn turns(
    s: &[u8],
    start: usize,
    n: u32,
    elapsed: u16,
    marks: &[u8; 200],
    bits: &mut [bool; 234],
    words: &mut [i16; 208],
    ticks: &mut [u32; 200],
    pins: &mut [u8; 200],
) -> Option<Ran>
    requires { n ≤ 200 }
    ensures value { result ≡ ran_of elapsed (arrays_before bits words ticks pins) (blocks_at marks.now n s.now start) }
    ensures after { arrays_after bits words ticks pins ≡ turned_while elapsed marks.now n s.now start (arrays_before bits words ticks pins) }
{
    let mut own = [0u8; 200];
    let mut asked = [0u8; 200];
    let mut steps: u32 = 0;
    let mut memory: u32 = 0;
    let mut at = start;
    for i in 0..(n as usize) {
        let w = words[i + 8];
        let p = Place {
            pins: pins[i],
            out: bits[i + 34],
            ticks: ticks[i],
            word: w,
        };
        let Ok(t) = running::turn(s, at, p, bits, words, elapsed, marks, &mut asked) else {
            return None;
        };
        let q = t.place;
        let a = q.word;
        bits[i + 34] = q.out;
        words[i + 8] = a;
        ticks[i] = q.ticks;
        pins[i] = q.pins;
        own[i] = t.mark;
        steps += t.steps;
        memory += t.memory;
        at = t.next;
    }
    let light = memory <= kinds::MEMORY_LIMIT;
    let answered = all_answer(n, &asked, &own);
    Some(Ran {
        good: if answered { light } else { false },
        steps,
        next: at,
    })
}
