//! The program `explain`: reads a scenario, runs it line by line and writes each line with what it brings, and notes that say why.
#![tactic(auto)]

mod document;
mod explain;
mod explainer;
mod program;
mod status;

use bcast_base::Memory;
use bcast_io::{ReadSource, WriteSink};
use explained_rows::ExplainedRows;
use program::{Form, explain_with_tallies};
use replay_lines::Ending;
use status::Status;
use std::io::Read;
use std::process::ExitCode;
use std::rt::Env;
use std::{env, io};

fn main(rt: HostRuntime) -> ExitCode {
    let status = match run(&rt, rt.stdin()) {
        Ok(status) => status,
        Err(Memory) => Status::Ended(Ending::Memory),
    };
    if let Some(message) = status.message() {
        let _ = eprintln!(rt; "{message}");
    }
    ExitCode::from(status.exit_code())
}

/// Runs the program over standard input and output.
fn run<R: Print + Env + AllocGlobal, I: Read + Drop>(rt: &R, input: I) -> Result<Status, Memory> {
    let Some(form) = form_of(rt)? else {
        return Ok(Status::Usage);
    };
    let mut source = ReadSource::new(input);
    let mut sink = ExplainedRows::new(WriteSink::new(io::writer(rt)));
    explain_with_tallies(rt.alloc(), form, &mut source, &mut sink)
}

/// What the words behind the program's name ask for: lines without words, a document by `--toml`.
fn form_of<R: Env + AllocGlobal>(rt: &R) -> Result<Option<Form>, Memory> {
    let mut args = match env::args(rt) {
        Ok(args) => args,
        Err(error) if error.kind() == io::ErrorKind::InvalidData => return Ok(None),
        Err(_) => return Err(Memory),
    };
    drop(args.next());
    let first = args.next();
    if args.next().is_some() {
        return Ok(None);
    }
    match first {
        None => Ok(Some(Form::Lines)),
        Some(word) if word.as_str() == "--toml" => Ok(Some(Form::Toml)),
        Some(_) => Ok(None),
    }
}
