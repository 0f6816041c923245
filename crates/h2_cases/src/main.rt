//! Checks cases, which are files: the answer to each command of a case, against the expected one.
//!
//! `h2_cases FOLDER` reads the files of each group's folder below `FOLDER`, and prints a line for
//! each group and one for all. A file has cases, which are read as [`read_cases`] says. A case
//! that differs is printed, with what was expected and what came. The exit status is 0 where
//! nothing differs, and 1 where a case differs or cannot be read, or a group has no cases.
#![tactic(auto)]

mod get;
mod group;
mod input;
mod location;
mod program;

use group::{GROUPS, Group, run_case};
use h2_case::case::read_cases;
use h2_case::report::{Counts, report_case, report_file};
use h2_net::WriteParts;
use std::alloc::Global;
use std::io::Write;
use std::process::ExitCode;
use std::{env, fs, io};

/// Checks the cases of one file, and counts them.
fn check_file<R: std::net::Net + fs::Files + std::time::Clock + Copy, W: Write>(
    rt: &R,
    alloc: Global,
    group: Group,
    file: &str,
    text: &str,
    out: &mut W,
) -> io::Result<Counts>
where
    R::Stream: WriteParts,
{
    let cases = match read_cases(alloc, text) {
        Ok(cases) if !cases.is_empty() => cases,
        _ => return report_file(file, out),
    };
    let mut counts = Counts::default();
    for case in &cases {
        let answers = run_case(rt, alloc, group, case);
        counts = counts.and(report_case(file, case, &answers, out)?);
    }
    Ok(counts)
}

/// Checks the files of a group's folder, and prints its line.
fn check_group<W: Write>(
    rt: &HostRuntime,
    folder: &str,
    group: Group,
    out: &mut W,
) -> io::Result<Counts> {
    let mut counts = Counts::default();
    let path = format!(in rt.alloc(); "{folder}/{}", group.name())?;
    for entry in fs::read_dir(rt, path.as_str())? {
        let entry = entry?;
        let text = fs::read_to_string(rt, entry.path())?;
        let file = format!(in rt.alloc(); "{}/{}", group.name(), entry.file_name())?;
        counts = counts.and(check_file(rt, rt.alloc(), group, &file, &text, out)?);
    }
    let counts = counts.or_empty();
    writeln!(out, "{}: {counts}", group.name())?;
    Ok(counts)
}

/// Checks all groups below a folder, and prints the number of cases.
fn check_all<W: Write>(rt: &HostRuntime, folder: &str, out: &mut W) -> io::Result<bool> {
    let mut counts = Counts::default();
    for group in GROUPS {
        counts = counts.and(check_group(rt, folder, group, out)?);
    }
    writeln!(out, "{counts}")?;
    out.flush()?;
    Ok(counts.is_good())
}

fn main(rt: HostRuntime) -> io::Result<ExitCode> {
    let Some(folder) = env::args(&rt)?.nth(1) else {
        return Ok(ExitCode::from(2));
    };
    let is_good = check_all(&rt, &folder, &mut io::writer(&rt))?;
    Ok(ExitCode::from(if is_good { 0 } else { 1 }))
}
