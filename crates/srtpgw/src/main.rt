//! The program: the words of the command line over the process's own input, output, sockets, clock and random
//! source.
#![tactic(auto)]

mod progress;

use crate::progress::Progress;
use sg_edge::{RngNoise, StdSink, StdSource, SystemRng, UdpLink, WallClock};
use sg_run::Status;
use std::io::{BufWriter, ErrorKind, Printer};
use std::net::Net;
use std::process::ExitCode;
use std::rt::Clock;
use std::thread::{Builder, Threads};

/// How many octets standard output holds before it passes them on unasked.
const OUTPUT_ROOM: usize = 65_536;

/// The octets of the stack on which the command runs. A thread has them from its start or isn't made, while the main
/// thread's stack grows as it is used, and where it may not the system ends the process.
const STACK: usize = 1024 * 1024;

/// The words after the program's name. `Usage` where one of all words isn't UTF-8.
fn words(rt: &HostRuntime) -> Result<Vec<String>, Status> {
    let args = std::env::args(rt).map_err(|error| match error.kind() {
        ErrorKind::InvalidData => Status::Usage,
        _ => Status::NoMemory,
    })?;
    args.skip(1)
        .collect(rt.alloc())
        .map_err(|_| Status::NoMemory)
}

/// Runs the words' command, which writes to this output. Its threads and sockets are of `host`.
fn run(
    rt: &HostRuntime,
    host: &(impl Threads + Net + Clock + Sync),
    words: &[String],
    output: BufWriter<Printer<'_, HostRuntime>>,
) -> Status {
    sg_run::run(
        host,
        rt.alloc(),
        words,
        &mut StdSource::make(rt.reader(), rt),
        &mut StdSink::make(output, rt),
        &mut UdpLink::make(rt.alloc(), host),
        &mut WallClock::make(rt),
        &mut RngNoise::make(SystemRng(rt)),
        &Progress::make(rt, words),
    )
}

/// Runs the command of the words on the command line.
fn command(rt: &HostRuntime, host: &(impl Threads + Net + Clock + Sync)) -> Status {
    let words = match words(rt) {
        Ok(words) => words,
        Err(status) => return status,
    };
    match BufWriter::with_capacity(rt.alloc(), OUTPUT_ROOM, std::io::writer(rt)) {
        Ok(output) => run(rt, host, &words, output),
        Err(_) => Status::NoMemory,
    }
}

fn main(rt: HostRuntime) -> ExitCode {
    let thread = Builder::new().stack_size(STACK);
    let status = match thread.spawn(&rt, move || command(&rt, &rt)) {
        Ok(running) => running.join(&rt),
        Err(_) => Status::NoMemory,
    };
    if status != Status::Done {
        let _ = eprintln!(rt; "{status}");
    }
    ExitCode::from(status.number())
}
