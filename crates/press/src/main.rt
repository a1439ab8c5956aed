//! The program, which does what its words ask for.
#![tactic(auto)]

use press_devices::Watched;
use press_disk::{FileOutputs, SystemFiles};
use press_main::{Devices, NamedFiles, run_words};
use press_sink::NamedOutputs;
use press_units::NO_MEMORY;
use std::env;
use std::io::{self, BufWriter, ErrorKind};
use std::process::ExitCode;

/// How many bytes one write to standard output takes.
const BUFFER: usize = 4_096;

/// The name of the file that standard input is.
const STANDARD_INPUT: &str = "/dev/stdin";

fn main(rt: HostRuntime) -> ExitCode {
    let words = match words_of(&rt) {
        Ok(words) => words,
        Err(error) => {
            let no_memory = error.kind() == ErrorKind::OutOfMemory;
            let told = if no_memory {
                NO_MEMORY
            } else {
                "press: a word is no text"
            };
            let _ = eprintln!(rt; "{told}");
            return ExitCode::from(if no_memory { 1 } else { 2 });
        }
    };
    match run(&rt, &words) {
        Ok(status) => ExitCode::from(status),
        Err(_) => {
            let _ = eprintln!(rt; "{NO_MEMORY}");
            ExitCode::from(1)
        }
    }
}

/// The words of the command line, the program's name among them.
fn words_of(rt: &HostRuntime) -> io::Result<Vec<String>> {
    Ok(env::args(rt)?.collect(rt.alloc())?)
}

/// Does what the words ask for, with the streams and files of the process: the status.
///
/// # Errors
///
/// Where there is no memory for the buffers of standard output and of files. Nothing was read then.
fn run(rt: &HostRuntime, words: &[String]) -> io::Result<u8> {
    let out = Watched::new(BufWriter::with_capacity(rt.alloc(), BUFFER, io::writer(rt))?);
    let mut outputs = FileOutputs::new(rt.alloc(), SystemFiles::new(rt))?;
    outputs.spare(STANDARD_INPUT)?;
    let inputs = NamedFiles::new(rt.alloc(), rt);
    let mut input = Watched::new(rt.stdin());
    let mut devices = Devices::new(inputs, outputs, out, rt.stderr());
    Ok(run_words(rt.alloc(), words, &mut input, &mut devices))
}
