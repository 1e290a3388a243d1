//! `span`: computes SPAN margin requirements for accounts of futures and options.
#![tactic(auto)]

use span_cli::disk::Disk;
use span_cli::serving::ServingMeans;
use span_cli::words::{refuse_words, run_words};
use std::alloc::Global;
use std::process::ExitCode;
use std::{env, io};
use worker_pool::gates::OpenGate;
use writers::marked_writer::MarkedWriter;

fn words_of(rt: &HostRuntime, alloc: Global) -> io::Result<Vec<String>> {
    let words = env::args(rt)?.collect(alloc)?;
    Ok(words)
}

fn main(rt: HostRuntime) -> ExitCode {
    let alloc = rt.alloc();
    let mut out = MarkedWriter::new(rt.stdout());
    let mut err = MarkedWriter::new(rt.stderr());
    let status = match words_of(&rt, alloc) {
        Ok(words) => {
            let lent = ServingMeans {
                rt: &rt,
                alloc,
                gate: &OpenGate,
            };
            let mut disk = Disk::new(alloc, &rt);
            let mut input = rt.stdin();
            run_words(&lent, &words, &mut disk, &mut input, &mut out, &mut err)
        }
        Err(error) => refuse_words(&error, &mut err),
    };
    ExitCode::from(status)
}
