//! The program: it runs the command line that it is given, in the folder that it is started in.
#![tactic(auto)]

use cic_io::{HostFolder, HostSink, NoMemory};
use cic_top::{Answer, Words, run};
use std::env;
use std::io::ErrorKind;
use std::process::ExitCode;

/// The words of the command line after the program's name.
fn words(rt: &HostRuntime) -> Result<Words, NoMemory> {
    let alloc = rt.alloc();
    match env::args(rt) {
        Ok(args) => Ok(Words::new(args.skip(1).collect(alloc)?)),
        Err(fault) if fault.kind() == ErrorKind::OutOfMemory => Err(NoMemory),
        // Where some argument is no text, none can be had and no word can be named. They are taken for no words
        // at all, of which word 1 is not understood.
        Err(_) => Ok(Words::new(Vec::new(alloc))),
    }
}

fn main(rt: HostRuntime) -> ExitCode {
    let answer = match words(&rt) {
        Ok(words) => {
            let mut folder = HostFolder::new(&rt);
            let mut out = HostSink::new(&rt);
            run(rt.alloc(), &words, &mut folder, &mut out)
        }
        Err(_) => Answer::NoMemory,
    };
    ExitCode::from(answer.status())
}
