// The programs on stored inputs: each argument names a file, and the program that reads it.
#![tactic(auto)]

use programs::Program;
use std::alloc::Global;
use std::env;
use std::fs::File;
use std::os::fd::AsRawFd;
use std::rt::Files;

// The programs, by the word that the names of their inputs begin with.
const PROGRAMS: [(&str, Program); 5] = [
    ("check-", Program::Check),
    ("arrange-", Program::Arrange),
    ("change-", Program::Change),
    ("study-", Program::Study),
    ("reason-", Program::Reason),
];

// The program that a name begins with, on the descriptor of its input.
fn run(name: &str, fd: i32) {
    for (word, program) in PROGRAMS {
        if name.starts_with(word) {
            let _ = programs::run(program, fd);
        }
    }
}

// A file that cannot be opened: its name and the error, on standard error.
fn tell_unopened(alloc: Global, name: &str, error: std::io::Error) -> std::io::Result<()> {
    let message = format!(in alloc; "{name}: {error}\n")?;
    io::write_all(2, message.as_bytes());
    Ok(())
}

// An argument: its name, and what the program writes.
fn one<R: Files<File = File> + AllocGlobal>(rt: &R, name: &str) -> std::io::Result<()> {
    let file = match File::open(rt, name) {
        Ok(file) => file,
        Err(error) => return tell_unopened(rt.alloc(), name, error),
    };
    io::write_all(1, b"== ");
    io::write_all(1, name.as_bytes());
    io::write_all(1, b"\n");
    run(name, file.as_raw_fd());
    Ok(())
}

fn main(rt: HostRuntime) -> std::io::Result<()> {
    for name in env::args(&rt)?.skip(1) {
        one(&rt, name.as_str())?;
    }
    Ok(())
}
