//! The program `replay`: reads a scenario, runs it line by line and writes its transcript.
#![tactic(auto)]

mod program;
mod replay;
mod status;

use bcast_base::Memory;
use bcast_io::{ReadSource, WriteSink};
use program::{replay_with_tallies, words_behind_name};
use replay_words::Words;
use status::Status;
use std::io::Read;
use std::process::ExitCode;
use std::rt::Env;
use std::{env, io};

fn main(rt: HostRuntime) -> ExitCode {
    let status = match run(&rt, rt.stdin()) {
        Ok(status) => status,
        Err(Memory) => Status::Memory,
    };
    if let Some(message) = status.message() {
        let _ = eprintln!(rt; "{message}");
    }
    ExitCode::from(status.exit_code())
}

/// Runs the program over standard input and output.
fn run<R: Print + Env + AllocGlobal, I: Read + Drop>(rt: &R, input: I) -> Result<Status, Memory> {
    let alloc = rt.alloc();
    let Some(words) = words_of(rt)? else {
        return Ok(Status::Usage);
    };
    let mut source = ReadSource::new(input);
    let mut sink = WriteSink::new(io::writer(rt));
    replay_with_tallies(alloc, &words, &mut source, &mut sink)
}

/// The words of the command line, without the program's name. `None` where one of them is no text.
fn words_of<R: Env + AllocGlobal>(rt: &R) -> Result<Option<Words>, Memory> {
    let args = match env::args(rt) {
        Ok(args) => args,
        Err(error) if error.kind() == io::ErrorKind::InvalidData => return Ok(None),
        Err(_) => return Err(Memory),
    };
    Ok(Some(words_behind_name(rt.alloc(), args)?))
}
