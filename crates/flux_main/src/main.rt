//! The program: hands the words, the real files and the standard streams to the top call, and ends
//! with the number of its status.
#![tactic(auto)]

use flux_io::{RealFolder, RealSink};
use flux_top::{Status, flux};
use std::alloc::AllocError;
use std::env;
use std::io::ErrorKind;
use std::process::ExitCode;

// The number of a run whose words the runtime refuses, as it does where one isn't UTF-8. It is no
// status of the top call.
const REFUSED_WORDS: u8 = 12;

// The words without the program's name, or the number to end with.
fn words(rt: &HostRuntime) -> Result<Vec<String>, u8> {
    let mut all = match env::args(rt) {
        Ok(all) => all,
        Err(error) if error.kind() == ErrorKind::OutOfMemory => return Err(Status::Memory.number()),
        Err(_) => return Err(REFUSED_WORDS),
    };
    let _program = all.next();
    match all.collect(rt.alloc()) {
        Ok(words) => Ok(words),
        Err(AllocError) => Err(Status::Memory.number()),
    }
}

fn main(rt: HostRuntime) -> ExitCode {
    let words = match words(&rt) {
        Ok(words) => words,
        Err(number) => return ExitCode::from(number),
    };
    let mut folder = RealFolder::new(&rt);
    let mut out = RealSink::new(rt.stdout());
    let mut err = RealSink::new(rt.stderr());
    let status = flux(rt.alloc(), &words, &mut folder, &mut out, &mut err);
    ExitCode::from(status.number())
}
