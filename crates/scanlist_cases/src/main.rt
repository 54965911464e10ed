// Every file that an argument names, under its name: each is a recording, and what scanlist prints for it follows.
#![tactic(auto)]

use std::fs::File;
use std::{env, io};

// The file of that name; one that cannot be opened is told of and passed over.
fn file(rt: &HostRuntime, name: &str) -> io::Result<()> {
    println!(rt; "== {name}")?;
    match File::open(rt, name) {
        Ok(mut opened) => {
            stream::run(rt, &mut opened);
            Ok(())
        }
        Err(error) => eprintln!(rt; "{name}: {error}"),
    }
}

// Each argument in turn.
fn main(rt: HostRuntime) -> io::Result<()> {
    for name in env::args(&rt)?.skip(1) {
        file(&rt, name.as_str())?;
    }
    Ok(())
}
