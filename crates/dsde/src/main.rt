//! `dsde`: runs models of systems that rebuild themselves while they run.
//!
//! The words after the program's name go to the command line's one call, with files as its shelf,
//! standard input as its source, and standard output and error as its sinks.
#![tactic(auto)]

ghost use Rattle.std.specs.Prelude.{◌≡◌};
ghost use Rattle.std.specs.Process.{exit_status};
ghost use Rattle.dsde_cli_status.specs.Note.{number_of};

use dsde_cli::{Status, dsde, report};
use dsde_io::{FileShelf, StreamSink, StreamSource};
use std::io::ErrorKind;
use std::process::ExitCode;
use std::rt::Env;
use std::{env, io};

fn main(rt: HostRuntime) -> ExitCode {
    exit_code(run(&rt))
}

/// Does what the words after the program's name ask for.
fn run(rt: &HostRuntime) -> Status {
    let alloc = rt.alloc();
    let mut notes = StreamSink::new(rt.stderr());
    let words = match read_words(rt) {
        Ok(words) => words,
        Err(error) if error.kind() == ErrorKind::OutOfMemory => {
            return report(alloc, Status::Memory, &mut notes);
        }
        // Words that are no text spell no command.
        Err(_) => Vec::new(alloc),
    };
    dsde(
        alloc,
        words.as_slice(),
        &mut FileShelf::new(rt),
        &mut StreamSource::new(rt.stdin()),
        &mut StreamSink::new(rt.stdout()),
        &mut notes,
    )
}

/// The words after the program's name.
fn read_words(rt: &(impl Env + AllocGlobal)) -> io::Result<Vec<String>> {
    let mut words = Vec::new(rt.alloc());
    for word in env::args(rt)?.skip(1) {
        words.push(word)?;
    }
    Ok(words)
}

/// The program ends with the status's number.
fn exit_code(status: Status) -> ExitCode
    ensures { exit_status result ≡ number_of status }
{
    ExitCode::from(status.number())
}
