//! Plans link capacities for a network whose demands must be carried.
#![tactic(auto)]

mod run;

use net_core::NoMemory;
use outside_io::{FileShelf, OpenGate, Status, StreamSink};
use run::run;
use std::process::ExitCode;
use std::{env, io};

/// The command-line arguments after the program's name; none if one of them isn't text.
fn words_of(rt: &HostRuntime) -> Result<Vec<String>, NoMemory> {
    match env::args(rt) {
        Ok(args) => Ok(args.skip(1).collect(rt.alloc())?),
        Err(fault) if fault.kind() == io::ErrorKind::OutOfMemory => Err(NoMemory),
        Err(_) => Ok(Vec::new(rt.alloc())),
    }
}

fn main(rt: HostRuntime) -> ExitCode {
    let Ok(words) = words_of(&rt) else {
        return ExitCode::from(Status::NoMemory.number());
    };
    let mut shelf = FileShelf::new(&rt);
    let mut out = StreamSink::new(io::writer(&rt));
    let status = run(&rt, rt.alloc(), &words, &mut shelf, &mut out, &OpenGate);
    ExitCode::from(status.number())
}
