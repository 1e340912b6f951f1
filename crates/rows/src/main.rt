//! rows: makes the calls that no command reaches, as the rows of files say, and tells which rows are answered otherwise.
#![tactic(auto)]

mod calls;
mod codec;
mod layers;
mod pieces;
mod report;
mod row;
mod schemas;
mod sinks;
mod sources;

use crate::report::{Report, report_of};
use std::process::ExitCode;
use std::{env, fs, io};

// Prints the rows that are told otherwise, and how many rows there are.
fn tell(rt: &HostRuntime, file: &str, report: &Report) -> io::Result<(u64, u64)> {
    let (lines, rows, differ) = (report.lines.as_str(), report.rows, report.differ);
    print!(rt; "{lines}")?;
    println!(rt; "{file}: {rows} rows, {differ} differ")?;
    Ok((rows, differ))
}

// Looks at the rows of a file, and answers how many there are and how many differ.
fn run_file(rt: &HostRuntime, file: &str) -> io::Result<(u64, u64)> {
    match fs::read_to_string(rt, file) {
        Ok(text) => tell(rt, file, &report_of(rt.alloc(), file, text.as_str())?),
        Err(_) => {
            println!(rt; "{file}: can't be read")?;
            Ok((0, 1))
        }
    }
}

// Looks at the rows of the files that the words name, and answers the exit status.
fn run_files(rt: &HostRuntime) -> io::Result<u8> {
    let files = env::args(rt)?.skip(1).collect::<Vec<String>>(rt.alloc())?;
    let mut rows: u64 = 0;
    let mut differ: u64 = 0;
    for file in &files {
        let (more, others) = run_file(rt, file.as_str())?;
        rows = rows.saturating_add(more);
        differ = differ.saturating_add(others);
    }
    println!(rt; "{rows} rows, {differ} differ")?;
    Ok(if differ == 0 { 0 } else { 1 })
}

fn main(rt: HostRuntime) -> ExitCode {
    match run_files(&rt) {
        Ok(status) => ExitCode::from(status),
        Err(_) => ExitCode::from(2),
    }
}
