//! Runs a command of the compiler and device host of electronic data sheets.
#![tactic(auto)]

use eds_base::Memory;
use eds_cmd::{Status, Words, eds};
use eds_io::{HostShelf, HostSink};
use std::env;
use std::io::ErrorKind;
use std::process::ExitCode;

// The words after the program's own name, none where an argument isn't text.
fn words_of(rt: &HostRuntime) -> Result<Words, Memory> {
    let mut words = Words::new(rt.alloc());
    let args = match env::args(rt) {
        Ok(args) => args,
        Err(e) => {
            return if e.kind() == ErrorKind::OutOfMemory {
                Err(Memory)
            } else {
                Ok(words)
            };
        }
    };
    for word in args.skip(1) {
        words.push(word.as_str())?;
    }
    Ok(words)
}

fn main(rt: HostRuntime) -> ExitCode {
    let status = match words_of(&rt) {
        Ok(words) => {
            let mut shelf = HostShelf::new(&rt);
            let mut sink = HostSink::new(&rt);
            eds(rt.alloc(), &words, &mut shelf, &mut sink)
        }
        Err(Memory) => Status::Memory,
    };
    ExitCode::from(status.number())
}
