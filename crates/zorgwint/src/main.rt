//! Plans link capacities for people, helps them with the files of a planning, and says what is wrong with one.
#![tactic(auto)]

mod run;
mod teller;

use net_core::NoMemory;
use outside_io::{FileShelf, Status, StreamSink};
use run::run;
use std::process::ExitCode;
use std::{env, io};
use teller::ErrorTeller;

/// The command-line arguments after the program's name; none if one of them isn't text.
fn words_of(rt: &HostRuntime) -> Result<Vec<String>, NoMemory> {
    match env::args(rt) {
        Ok(args) => Ok(args.skip(1).collect(rt.alloc())?),
        Err(fault) if fault.kind() == io::ErrorKind::OutOfMemory => Err(NoMemory),
        Err(_) => Ok(Vec::new(rt.alloc())),
    }
}

fn main(rt: HostRuntime) -> ExitCode {
    let Ok(words) = words_of(&rt) else {
        return ExitCode::from(Status::NoMemory.number());
    };
    let mut shelf = FileShelf::new(&rt);
    let mut out = StreamSink::new(io::writer(&rt));
    let mut beside = StreamSink::new(rt.stderr());
    let teller = ErrorTeller::new(rt.stderr());
    let status = run(
        &rt,
        rt.alloc(),
        &words,
        &mut shelf,
        &mut out,
        &mut beside,
        &teller,
    );
    ExitCode::from(status.number())
}
