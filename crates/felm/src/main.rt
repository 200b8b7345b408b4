//! `felm run PROGRAM SCRIPT` runs a program on a script of events with workers and prints what it says,
//! `felm sync PROGRAM SCRIPT` does so on one thread, and `felm graph PROGRAM` prints the graph of its
//! signals.
#![tactic(auto)]

use felm_cli::{Status, felm, put_fault};
use felm_io::{DiskFiles, StreamSink};
use felm_term::Limits;
use felm_workers::FreeGate;
use std::process::ExitCode;
use std::{env, io, rt};

/// The words of the command line, without the program's own name. A word that isn't text is a
/// faulty command line.
fn command_words<R: rt::Env + AllocGlobal>(rt: &R) -> Result<Vec<String>, Status> {
    let args = match env::args(rt) {
        Ok(args) => args,
        Err(fault) if fault.kind() == io::ErrorKind::OutOfMemory => return Err(Status::Memory),
        Err(_) => return Err(Status::Usage),
    };
    args.skip(1).collect(rt.alloc()).map_err(|_| Status::Memory)
}

fn main(rt: HostRuntime) -> ExitCode {
    let mut err = StreamSink::make(rt.stderr());
    let status = match command_words(&rt) {
        Ok(words) => {
            let mut files = DiskFiles::make(&rt);
            let mut out = StreamSink::make(rt.stdout());
            felm(
                &rt,
                rt.alloc(),
                words.as_slice(),
                &mut files,
                &mut out,
                &mut err,
                &FreeGate,
            )
        }
        Err(status) => {
            let _ = put_fault(&status, "", &Limits::DEFAULT, &mut err);
            status
        }
    };
    ExitCode::from(status.code())
}
