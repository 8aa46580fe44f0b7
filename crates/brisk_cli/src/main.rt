//! Rewrites programs of processes into sequential programs, checks derivations, and runs both kinds of programs.
#![tactic(auto)]

mod answer;
mod checked;
mod commands;
#[cfg(test)]
mod derivations;
mod derived;
mod drilled;
mod faults;
mod files;
mod invalid;
mod order;
mod rewritten;
mod run;
mod sequenced;
mod serve;
#[cfg(test)]
mod simple;
mod source;
mod status;
#[cfg(test)]
mod tests;

use brisk_io::{RealFolder, RealSink};
use serve::serve;
use status::Status;
use std::env;
use std::process::ExitCode;

fn main(rt: HostRuntime) -> ExitCode {
    let words = match env::args(&rt) {
        Ok(mut words) => {
            let _program = words.next();
            words.collect::<Vec<String>>(rt.alloc())
        }
        // words that aren't text have no listed form
        Err(_) => Ok(Vec::new(rt.alloc())),
    };
    let Ok(words) = words else {
        return ExitCode::from(Status::NoMemory.number());
    };
    let mut folder = RealFolder::new(&rt);
    let mut out = RealSink::new(&rt);
    ExitCode::from(serve(rt.alloc(), &words, &mut folder, &mut out).number())
}
