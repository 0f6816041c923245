//! Cases, and how a file has them.

use std::alloc::{AllocError, AllocFailed, Global};

/// Why a case has no answer.
#[derive(Debug, Clone, Copy, PartialEq, Eq)]
pub enum CaseError {
    /// A command, or a line before the first one, cannot be read.
    Unread,
    /// Memory was refused.
    Memory,
}

impl From<AllocError> for CaseError {
    fn from(_: AllocError) -> CaseError {
        CaseError::Memory
    }
}

impl<T: Drop> From<AllocFailed<T>> for CaseError {
    fn from(_: AllocFailed<T>) -> CaseError {
        CaseError::Memory
    }
}

/// A command, and the lines of its expected answer, each with its newline.
#[derive(Drop)]
pub struct Step {
    pub command: String,
    pub wanted: String,
}

/// Commands that are given one after another to something new.
#[derive(Drop)]
pub struct Case {
    pub name: String,
    pub steps: Vec<Step>,
}

// The text without its empty last lines.
fn trimmed(text: &str) -> &str {
    text.trim_end_matches('\n')
}

/// Whether two answers are the same, their empty last lines left out.
pub fn is_same(answer: &str, wanted: &str) -> bool {
    trimmed(answer) == trimmed(wanted)
}

// Begins a case of this name.
fn begin_case(alloc: Global, cases: &mut Vec<Case>, name: &str) -> Result<(), CaseError> {
    let name = String::from_str(alloc, name)?;
    let steps = Vec::new(alloc);
    Ok(cases.push(Case { name, steps })?)
}

// Begins a step with this command, in the last case.
fn begin_step(alloc: Global, cases: &mut Vec<Case>, command: &str) -> Result<(), CaseError> {
    let Some(case) = cases.last_mut() else {
        return Err(CaseError::Unread);
    };
    let command = String::from_str(alloc, command)?;
    let wanted = String::new(alloc);
    Ok(case.steps.push(Step { command, wanted })?)
}

// The expected answer of the last step.
fn last_wanted(cases: &mut Vec<Case>) -> Option<&mut String> {
    Some(&mut cases.last_mut()?.steps.last_mut()?.wanted)
}

// Adds a line to the expected answer of the last step; before the first step there are empty lines
// alone.
fn add_wanted(cases: &mut Vec<Case>, line: &str) -> Result<(), CaseError> {
    match last_wanted(cases) {
        Some(wanted) => {
            wanted.push_str(line)?;
            Ok(wanted.push_str("\n")?)
        }
        None if line.is_empty() => Ok(()),
        None => Err(CaseError::Unread),
    }
}

// Reads a line of a file.
fn read_line(alloc: Global, cases: &mut Vec<Case>, line: &str) -> Result<(), CaseError> {
    if line == "#" || line.starts_with("# ") {
        return Ok(());
    }
    if let Some(name) = line.strip_prefix("case ") {
        return begin_case(alloc, cases, name);
    }
    match line.strip_prefix("> ") {
        Some(command) => begin_step(alloc, cases, command),
        None => add_wanted(cases, line),
    }
}

/// Reads the cases of a file: a line `case NAME` begins one, a line `> COMMAND` is a command, and
/// the lines up to the next command or case are its expected answer. Lines that begin with `# `
/// are comments, and empty last lines of an answer don't count.
pub fn read_cases(alloc: Global, text: &str) -> Result<Vec<Case>, CaseError> {
    let mut cases = Vec::new(alloc);
    for line in text.lines() {
        read_line(alloc, &mut cases, line)?;
    }
    Ok(cases)
}
