//! Replays a trace over an image in memory, and prints how often the start and each judged event look into the index.
#![tactic(auto)]

mod replay;
mod why;

use replay::replay;
use std::io::{self, BufWriter, Write};
use std::process::ExitCode;
use std::rt::Env;
use std::{env, fs};
use why::Why;

// The arguments behind the program's name.
fn arguments<R: Env + AllocGlobal>(rt: &R) -> io::Result<Vec<String>> {
    let mut arguments = Vec::new(rt.alloc());
    for argument in env::args(rt)?.skip(1) {
        arguments.push(argument)?;
    }
    Ok(arguments)
}

// Replays the trace in one file over the image in another, and prints the lines.
fn print(rt: &HostRuntime, image: &str, trace: &str) -> Result<(), Why> {
    let image = fs::read(rt, image)?;
    let trace = fs::read(rt, trace)?;
    let mut out = BufWriter::new(rt.alloc(), io::writer(rt))?;
    let done = replay(rt.alloc(), &mut out, image, trace);
    out.flush()?;
    done
}

fn main(rt: HostRuntime) -> ExitCode {
    let Ok(given) = arguments(&rt) else {
        return ExitCode::from(4);
    };
    let done = match given.as_slice() {
        [image, trace] => print(&rt, image.as_str(), trace.as_str()),
        _ => Err(Why::Arguments),
    };
    match done {
        Ok(()) => ExitCode::from(0),
        Err(why) => {
            let _ = eprintln!(&rt; "looks: {why}");
            ExitCode::from(why.status())
        }
    }
}
