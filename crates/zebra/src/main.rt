//! The program: it runs a script of file calls on a striped file system, and prints its report.
#![tactic(auto)]

mod ending;
mod header;
mod last;
mod program;
mod reading;
mod run;
mod source;
mod steps;
#[cfg(test)]
mod tests;

use program::{Status, zebra_run};
use std::process::ExitCode;
use std::{env, io};
use zb_devices::FileOutside;

// The program takes its words, runs the script of standard input, and prints the report on standard output. Where the
// words can't be taken, the status is that of want of memory.
fn main(rt: HostRuntime) -> ExitCode {
    let Ok(args) = env::args(&rt) else {
        return ExitCode::from(6);
    };
    let mut words = Vec::new(rt.alloc());
    for word in args.skip(1) {
        if words.push(word).is_err() {
            return ExitCode::from(6);
        }
    }
    let outside = FileOutside::new(&rt, rt.alloc(), rt.reader(), io::writer(&rt));
    let (Status(status), _) = zebra_run(rt.alloc(), &words, outside);
    ExitCode::from(status)
}
