//! The program `catnap`: real files, standard output and the words of the command line.
#![tactic(auto)]

#[cfg(test)]
mod commands;
mod files;
mod output;
#[cfg(test)]
mod tests;

use crate::files::FileInputs;
use crate::output::StdoutSink;
use catnap_top::{Status, catnap};
use std::env;
use std::io::ErrorKind;
use std::process::ExitCode;

/// The words of the command line without the program's name. Words that aren't text are no words.
fn words(rt: &HostRuntime) -> Result<Vec<String>, Status> {
    let mut words = Vec::new(rt.alloc());
    let args = match env::args(rt) {
        Ok(args) => args,
        Err(error) if error.kind() == ErrorKind::OutOfMemory => return Err(Status::NoMemory),
        Err(_) => return Ok(words),
    };
    for word in args.skip(1) {
        if words.push(word).is_err() {
            return Err(Status::NoMemory);
        }
    }
    Ok(words)
}

fn answer(rt: &HostRuntime) -> Status {
    match words(rt) {
        Ok(words) => catnap(
            rt.alloc(),
            words.as_slice(),
            &mut FileInputs::new(rt),
            &mut StdoutSink::new(rt),
        ),
        Err(status) => status,
    }
}

fn main(rt: HostRuntime) -> ExitCode {
    ExitCode::from(answer(&rt).number())
}
