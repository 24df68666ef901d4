// The program `audit`: reads its arguments and files, and prints what the libraries answer.
#![tactic(auto)]

mod auditing;
mod books;
mod files;
mod listing;
mod recording;
mod tallying;
mod turns;
mod witness;

use anyhow::anyhow;
use auditing::audit;
use books::list_book;
use recording::report_on;
use std::env;
use std::process::ExitCode;
use tallying::tally;
use witness::compare_makes;

const USAGE: &str =
    "usage: audit BOOK LOG [LOG], or audit with a task: witness BOOK LOG LOG, tally BOOK LOG.., book BOOK, recording LOG [LOG]";

// How a task ended that has said all it has to say.
#[derive(Clone, Copy)]
pub enum Status {
    Success,
    Refused,
}

// Says how the program is called.
pub fn misused(rt: &HostRuntime) -> anyhow::Result<Status> {
    eprintln!(rt; "audit: {USAGE}")?;
    Ok(Status::Refused)
}

fn run(rt: &HostRuntime) -> anyhow::Result<Status> {
    let args: Vec<String> = env::args(rt)?.skip(1).collect(rt.alloc())?;
    match args.as_slice() {
        [command, paths @ ..] => match command.as_str() {
            "book" => list_book(rt, paths),
            "recording" => report_on(rt, paths),
            "tally" => tally(rt, paths),
            "witness" => compare_makes(rt, paths),
            _ => audit(rt, args.as_slice()),
        },
        [] => misused(rt),
    }
}

fn main(rt: HostRuntime) -> ExitCode {
    match run(&rt) {
        Ok(Status::Success) => ExitCode::SUCCESS,
        Ok(Status::Refused) => ExitCode::FAILURE,
        Err(e) => {
            let _ = eprintln!(rt; "audit: {e}");
            ExitCode::FAILURE
        }
    }
}
