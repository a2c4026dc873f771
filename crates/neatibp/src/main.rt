//! Integration-by-parts relations of families of Feynman integrals, written by their Baikov polynomials.
#![tactic(auto)]

use commands::{Status, status_text};
use ibp_outside::{OpenGate, StdSink, StdSource};
use std::process::ExitCode;
use std::rt::Env;
use std::sync::Wait;
use std::thread::Threads;
use std::{env, io};
use top_call::run_tool;

// The words behind the program's name. A word that is no text belongs to no command.
fn words_of<R: Env + AllocGlobal>(rt: &R) -> Result<Vec<String>, Status> {
    match env::args(rt) {
        Ok(args) => args
            .skip(1)
            .collect(rt.alloc())
            .map_err(|_| Status::NoMemory),
        Err(error) if error.kind() == io::ErrorKind::OutOfMemory => Err(Status::NoMemory),
        Err(_) => Err(Status::Usage),
    }
}

fn run_over<R: Env + Input + Print + AllocGlobal + Threads + Wait + Sync>(rt: &R) -> Status {
    let mut source = StdSource::new(rt.reader());
    let mut sink = StdSink::new(io::writer(rt));
    match words_of(rt) {
        Ok(words) => run_tool(rt, rt.alloc(), &words, &mut source, &mut sink, &OpenGate),
        Err(status) => status,
    }
}

// Writes the message of a status to standard error.
fn tell(rt: &impl Eprint, status: &Status) {
    let mut buffer = [0; 128];
    let len = status_text(status, &mut buffer);
    if let Ok(message) = str::from_utf8(&buffer[..len])
        && len > 0
    {
        let _ = eprintln!(rt; "{message}");
    }
}

fn main(rt: HostRuntime) -> ExitCode {
    let status = run_over(&rt);
    tell(&rt, &status);
    ExitCode::from(status.code())
}
