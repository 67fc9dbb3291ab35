//! The program: a ticket file on standard input, its report on standard output.

#![tactic(auto)]

use day::Fault;
use std::io::Read;
use std::process::ExitCode;
use ticket_file::reading::LONGEST_FILE;

/// One byte more than the longest file, so that a longer one is told from it. A constant cannot call `From`.
const ENOUGH_BYTES: u64 = LONGEST_FILE as u64 + 1;

/// Reads the file, prints the report, and answers the fault.
fn print_report(rt: &HostRuntime) -> anyhow::Result<Option<Fault>> {
    let heap = rt.alloc();
    let mut file = Vec::new(heap);
    rt.stdin().take(ENOUGH_BYTES).read_to_end(&mut file)?;
    let report = day::report_on(heap, &file)?;
    rt.print(report.text.as_str())?;
    Ok(report.fault)
}

fn main(rt: HostRuntime) -> anyhow::Result<ExitCode> {
    match print_report(&rt)? {
        None => Ok(ExitCode::SUCCESS),
        Some(_) => Ok(ExitCode::FAILURE),
    }
}
