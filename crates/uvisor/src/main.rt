//! The program: `scripted` of `uvisor_run` over the words of the command line, standard input and standard output.
#![tactic(auto)]

use io_edge::{StdinSource, StdoutSink};
use std::alloc::Global;
use std::env;
use std::io::ErrorKind;
use std::process::ExitCode;
use uvisor_run::scripted;

// The status of a run that was refused memory.
const NO_MEMORY: u8 = 5;

// The words after the program's name; none where one of them is not UTF-8, which is no command.
fn words(rt: &HostRuntime) -> Result<Vec<String>, u8> {
    match env::args(rt) {
        Ok(args) => args.skip(1).collect(rt.alloc()).map_err(|_| NO_MEMORY),
        Err(error) => {
            if error.kind() == ErrorKind::OutOfMemory {
                Err(NO_MEMORY)
            } else {
                Ok(Vec::new(rt.alloc()))
            }
        }
    }
}

fn main(rt: HostRuntime) -> ExitCode {
    match words(&rt) {
        Ok(words) => {
            let mut source = StdinSource::new(rt.stdin());
            let mut sink = StdoutSink::new(rt.stdout());
            ExitCode::from(scripted(rt.alloc(), &words, &mut source, &mut sink))
        }
        Err(status) => ExitCode::from(status),
    }
}
