// A whole program read from its bytes, and accepted or refused.
#![tactic(auto)]

ghost use Rattle.std.specs.Prelude.{◌≡◌, ◌≤◌, ◌<◌};
ghost use Rattle.program.specs.Program.{blocks_at, references_at, alarms_at, program_at};
ghost use Rattle.program.specs.Acceptance.{accepted};
ghost use Rattle.program.specs.Answers.{blocks_read, end_of, program_read, reading_of_answer, end_of_answer, acceptance_of};

use terms::{Fault, Refusal};

// Memory and step figure of what was read, the mark of each block, and the place after it.
#[derive(Drop)]
pub struct Reading {
    pub memory: u32,
    pub steps: u32,
    pub marks: [u8; 200],
    pub next: usize,
}

// n blocks from `start` on.
fn read_blocks(s: &[u8], start: usize, n: u32, marks: &[u8; 200]) -> Result<Reading, Fault>
    requires { n ≤ 200 }
    ensures { reading_of_answer result ≡ blocks_read (blocks_at marks.now n s.now start) }
{
    let mut memory: u32 = 0;
    let mut steps: u32 = 0;
    let mut own = [0u8; 200];
    let mut at = start;
    for i in 0..(n as usize) {
        let b = block::read_block(s, at, marks)?;
        memory += b.memory;
        steps += b.figure;
        own[i] = b.mark;
        at = b.next;
    }
    Ok(Reading {
        memory,
        steps,
        marks: own,
        next: at,
    })
}

// n bit references from `start` on.
fn read_references(s: &[u8], start: usize, n: u32, marks: &[u8; 200]) -> Result<usize, Fault>
    ensures { end_of_answer result ≡ end_of (references_at marks.now n s.now start) }
{
    let mut at = start;
    for _ in 0..n {
        let (_, next) = numbers::read_number(s, at, numbers::PIN, 0, marks)?;
        at = next;
    }
    Ok(at)
}

// The alarms from `start` on, and then the end of the data.
fn read_alarms(s: &[u8], start: usize, marks: &[u8; 200]) -> Result<usize, Fault>
    ensures { end_of_answer result ≡ end_of (alarms_at marks.now s.now start) }
{
    let (n, first) = numbers::read_number(s, start, numbers::ALARM_COUNT, 0, marks)?;
    let at = read_references(s, first, n, marks)?;
    if at < s.len() {
        return Err(Fault {
            refusal: Refusal::Outside,
            at,
        });
    }
    Ok(at)
}

// The whole program, by the marks of its blocks.
fn read_program(s: &[u8], marks: &[u8; 200]) -> Result<Reading, Fault>
    ensures { reading_of_answer result ≡ program_read (program_at marks.now s.now) }
{
    let (n, first) = numbers::read_number(s, 0, numbers::BLOCK_COUNT, 0, marks)?;
    let mut reading = read_blocks(s, first, n, marks)?;
    reading.next = read_alarms(s, reading.next, marks)?;
    Ok(reading)
}

// The answer of acceptance: number of refusal and place (0 and 0 if there is none), memory and step figure (0 and 0 if refused).
#[derive(Drop)]
pub struct Acceptance {
    pub refusal: u8,
    pub place: usize,
    pub memory: u32,
    pub steps: u32,
}

// The program read twice, the second time by the marks of its blocks; and its memory.
fn read_twice(program: &[u8]) -> Result<Reading, Fault>
    ensures { acceptance_of result ≡ accepted program.now }
{
    let every = [2u8; 200];
    let first = read_program(program, &every)?;
    read_program(program, &first.marks)?;
    if kinds::MEMORY_LIMIT < first.memory {
        return Err(Fault {
            refusal: Refusal::OverMemory,
            at: 0,
        });
    }
    Ok(first)
}

// Whether a program is good, and what it takes.
pub fn accept(program: &[u8]) -> Acceptance
    ensures { result ≡ accepted program.now }
{
    match read_twice(program) {
        Ok(first) => Acceptance {
            refusal: 0,
            place: 0,
            memory: first.memory,
            steps: first.steps,
        },
        Err(f) => Acceptance {
            refusal: f.refusal.number(),
            place: f.at,
            memory: 0,
            steps: 0,
        },
    }
}
