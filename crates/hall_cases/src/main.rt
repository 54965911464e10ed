// Every file that an argument names, under its name: cases of the controller, a command a line, its words with single spaces between them.
// tests/controller.py says what the commands are, and writes the files and what is to be printed.
// Nothing but safety is promised here: what is read and answered is compared when the cases are run.
#![tactic(auto)]

mod line_words;
mod looking;

use image::State;
use std::alloc::Global;
use std::fs::File;
use std::{env, io};

// The longest file.
const MOST_FILE: usize = 262144;

// What stands between two commands: the state and the program.
#[derive(Drop)]
struct Desk {
    state: State,
    program: Vec<u8>,
}

impl Desk {
    // The state of a new case is fresh, and its program empty.
    fn new(alloc: Global) -> Desk {
        Desk {
            state: State::fresh(),
            program: Vec::new(alloc),
        }
    }
}

// Command `a`: what acceptance answers.
fn accept(rt: &impl Print, desk: &Desk) -> io::Result<()> {
    let a = program::accept(&desk.program);
    println!(rt; "a {} {} {} {}", a.refusal, a.place, a.memory, a.steps)
}

// Command `s`: a scan.
fn scan(rt: &impl Print, line: &[u8], desk: &mut Desk) -> io::Result<()> {
    let given = desk.state;
    let a = hall::scan(
        &desk.program,
        given,
        line_words::short(line, 1),
        line_words::long(line, 2),
        line_words::analog(line),
    );
    let s = a.state;
    print!(rt;
        "s {} {} {} {} {}",
        a.refusal, a.place, a.alarms, a.steps, a.rises
    )?;
    print!(rt; " {} {} {}", s.time, s.journal.held, s.journal.missed)?;
    if a.refusal != 0 {
        print!(rt; " {}", looking::change(&given, &s))?;
    }
    desk.state = s;
    println!(rt; "")
}

// Command `t`: a take.
fn take(rt: &impl Print, desk: &mut Desk) -> io::Result<()> {
    let given = desk.state;
    let a = hall::take(given);
    let s = a.state;
    let e = a.entry;
    print!(rt;
        "t {} {} {} {} {}",
        a.refusal,
        u8::from(a.found),
        e.number,
        e.stamp.time,
        s.journal.held
    )?;
    if a.refusal != 0 || !a.found {
        print!(rt; " {}", looking::change(&given, &s))?;
    }
    desk.state = s;
    println!(rt; "")
}

// One line of a file, without its end. Command `=` begins a case, and is printed itself; `p` puts the program's bytes.
fn command(rt: &(impl Print + AllocGlobal), line: &[u8], desk: &mut Desk) -> io::Result<()> {
    let Some(&name) = line.first() else {
        return Ok(());
    };
    match name {
        b'=' => {
            rt.write_all(line)?;
            println!(rt; "")?;
            *desk = Desk::new(rt.alloc());
        }
        b'p' => desk.program = line_words::program(rt.alloc(), line)?,
        b'a' => accept(rt, desk)?,
        b's' => scan(rt, line, desk)?,
        b't' => take(rt, desk)?,
        b'b' => looking::show_place(rt, line, &desk.state)?,
        b'j' => looking::show_entry(rt, line, &desk.state)?,
        _ => looking::set(line, name, &mut desk.state),
    }
    Ok(())
}

// Each line of a file.
fn cases(rt: &(impl Print + AllocGlobal), all: &[u8]) -> io::Result<()> {
    let mut desk = Desk::new(rt.alloc());
    for line in all.split(|b| *b == b'\n') {
        command(rt, line, &mut desk)?;
    }
    Ok(())
}

// The file of that name; one that cannot be opened is told of and passed over.
fn file(rt: &HostRuntime, name: &str) -> io::Result<()> {
    println!(rt; "== {name}")?;
    match File::open(rt, name) {
        Ok(mut opened) => {
            let mut text = [0u8; MOST_FILE];
            let size = reading::read_full(&mut opened, &mut text);
            cases(rt, &text[..size])
        }
        Err(error) => eprintln!(rt; "{name}: {error}"),
    }
}

// Each argument in turn.
fn main(rt: HostRuntime) -> io::Result<()> {
    for name in env::args(&rt)?.skip(1) {
        file(&rt, name.as_str())?;
    }
    Ok(())
}
