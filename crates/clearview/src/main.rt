//! The program: reads the words after its name as a command, does it over the files of the system,
//! and writes the text to standard output, or why there is none to standard error
//! (docs/FORMATS.md).
#![tactic(auto)]

mod asm;
mod audit;
mod cause;
mod clearview;
mod files;
mod infer;
mod judgement;
mod kept;
mod list;
mod plain;
mod replay;
mod texts;
mod tool;
mod words;

use cause::Cause;
use clearview::clearview;
use cv_edge::{FileDisk, FileStore, OpenGate, StdSink};
use std::io::ErrorKind;
use std::process::ExitCode;
use std::{env, io};

fn main(rt: HostRuntime) -> ExitCode {
    let cause = match words_of(&rt) {
        Ok(words) => {
            let mut store = FileStore::over(&rt);
            let mut sink = StdSink::over(rt.stdout());
            let words = words.as_slice();
            let mut disk = FileDisk::over(&rt);
            let alloc = rt.alloc();
            clearview(
                &rt, alloc, words, &mut store, &mut sink, &OpenGate, &mut disk,
            )
            .cause
        }
        Err(cause) => cause,
    };
    if cause != Cause::Done {
        // Where standard error fails too, the status alone tells the cause.
        let _ = eprintln!(rt; "{cause}");
    }
    ExitCode::from(cause.status())
}

/// The words after the program's name. A word that is not UTF-8 is in no command.
fn words_of(rt: &HostRuntime) -> Result<Vec<String>, Cause> {
    let mut all = match env::args(rt) {
        Ok(all) => all,
        Err(error) if error.kind() == ErrorKind::OutOfMemory => return Err(Cause::NoMemory),
        Err(_) => return Err(Cause::Usage),
    };
    let _name = all.next();
    let mut words = Vec::new(rt.alloc());
    for word in all {
        if words.push(word).is_err() {
            return Err(Cause::NoMemory);
        }
    }
    Ok(words)
}
