//! cases: runs tlbox over files in memory as case files say, and tells which runs end otherwise.
#![tactic(auto)]

use box_server::MemKeeper;
use case_files::{BadLine, Case, Ending, TracedHost, entries_text, read_cases, shown_run};
use commands::{keep_in, run, run_stored};
use outside::MemHost;
use std::alloc::{AllocError, Global};
use std::process::ExitCode;
use std::{env, fs, io};
use tl_base::Out;

/// How many runs there were, and how many of them ended otherwise than wanted.
#[derive(Clone, Copy)]
struct Counts {
    runs: u64,
    differ: u64,
}

impl Counts {
    fn with(self, more: Counts) -> Counts {
        Counts {
            runs: self.runs.saturating_add(more.runs),
            differ: self.differ.saturating_add(more.differ),
        }
    }
}

// Runs the program, and tells its status.
fn status_of(alloc: Global, words: &[String], host: &mut TracedHost<MemHost>) -> u8 {
    run(alloc, words, host).code()
}

// Runs `keep` over a keeper, and tells its status, and the entries afterwards.
fn kept_by(
    alloc: Global,
    words: &[String],
    host: &mut TracedHost<MemHost>,
    keeper: MemKeeper,
) -> Result<(u8, Vec<u8>), AllocError> {
    let (status, keeper) = run_stored(alloc, words, host, keeper);
    Ok((status.code(), entries_text(alloc, keeper.entries())?))
}

// How a run ended, and what it did.
fn ending_over(
    alloc: Global,
    status: u8,
    host: &TracedHost<MemHost>,
    kept: Vec<u8>,
) -> Result<Ending, AllocError> {
    if !host.is_whole {
        return Err(AllocError);
    }
    Ok(Ending {
        status,
        output: Vec::from_slice(alloc, host.host.written(Out::Output))?,
        errors: Vec::from_slice(alloc, host.host.written(Out::Errors))?,
        state: Vec::from_slice(alloc, host.host.written(Out::State))?,
        traffic: host.traffic.copy()?,
        kept,
    })
}

// How a run ends.
fn ending_of(alloc: Global, case: &Case) -> Result<Ending, AllocError> {
    let mut host = TracedHost::new(alloc, case.host()?);
    if keep_in(case.words()).is_none() {
        let status = status_of(alloc, case.words(), &mut host);
        return ending_over(alloc, status, &host, Vec::new(alloc));
    }
    let Ok(keeper) = case.keeper() else {
        return Err(AllocError);
    };
    let (status, kept) = kept_by(alloc, case.words(), &mut host, keeper)?;
    ending_over(alloc, status, &host, kept)
}

// Whether a run ended as it was to. A line is printed where it didn't.
fn is_wanted(rt: &HostRuntime, case: &Case, got: &Ending) -> io::Result<bool> {
    if got.ends_as(case.wanted()) {
        return Ok(true);
    }
    let line = case.difference(got)?;
    println!(rt; "{line}")?;
    Ok(false)
}

// Makes a run, and prints a line where it ends otherwise. Where runs are to be shown, what it did comes before that.
fn run_case(rt: &HostRuntime, case: &Case, shows: bool) -> io::Result<Counts> {
    let got = ending_of(rt.alloc(), case)?;
    if shows {
        let text = shown_run(rt.alloc(), case.words(), &got)?;
        print!(rt; "{text}")?;
    }
    let differ = if is_wanted(rt, case, &got)? { 0 } else { 1 };
    Ok(Counts { runs: 1, differ })
}

// Makes the runs.
fn run_cases(rt: &HostRuntime, cases: &[Case], shows: bool) -> io::Result<Counts> {
    let mut counts = Counts { runs: 0, differ: 0 };
    for case in cases {
        counts = counts.with(run_case(rt, case, shows)?);
    }
    Ok(counts)
}

// Prints what can't be used of a file. It counts as a run that ends otherwise.
fn refuse(rt: &HostRuntime, name: &str, bad: BadLine) -> io::Result<Counts> {
    let (number, fault) = (bad.line, bad.fault.text());
    println!(rt; "{name}:{number} {fault}")?;
    Ok(Counts { runs: 0, differ: 1 })
}

// Makes the runs of a case file of this text.
fn run_text(rt: &HostRuntime, name: &str, text: &str, shows: bool) -> io::Result<Counts> {
    match read_cases(rt, name, text) {
        Ok(cases) => {
            let counts = run_cases(rt, &cases, shows)?;
            let (runs, differ) = (counts.runs, counts.differ);
            println!(rt; "{name}: {runs} runs, {differ} differ")?;
            Ok(counts)
        }
        Err(bad) => refuse(rt, name, bad),
    }
}

// Makes the runs of a case file.
fn run_file(rt: &HostRuntime, name: &str, shows: bool) -> io::Result<Counts> {
    match fs::read_to_string(rt, name) {
        Ok(text) => run_text(rt, name, text.as_str(), shows),
        Err(_) => {
            println!(rt; "{name}: can't be read")?;
            Ok(Counts { runs: 0, differ: 1 })
        }
    }
}

// Makes the runs of the files that the words name, and answers the exit status.
fn run_files(rt: &HostRuntime) -> io::Result<u8> {
    let mut counts = Counts { runs: 0, differ: 0 };
    let mut is_asked = false;
    let mut shows = false;
    for word in env::args(rt)?.skip(1) {
        if !is_asked && word.as_str() == "--show" {
            shows = true;
        } else {
            is_asked = true;
            counts = counts.with(run_file(rt, word.as_str(), shows)?);
        }
    }
    if !is_asked {
        println!(rt; "usage: cases [--show] FILE ..")?;
        return Ok(2);
    }
    let (runs, differ) = (counts.runs, counts.differ);
    println!(rt; "{runs} runs, {differ} differ")?;
    Ok(if differ == 0 { 0 } else { 1 })
}

fn main(rt: HostRuntime) -> ExitCode {
    match run_files(&rt) {
        Ok(status) => ExitCode::from(status),
        Err(_) => ExitCode::from(2),
    }
}
