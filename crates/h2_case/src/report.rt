//! What is printed of cases.

use crate::case::{Case, CaseError, Step, is_same};
use crate::driver::Answer;
use std::fmt;
use std::io::{self, Write};

/// The number of cases, and of those that differ.
#[derive(Clone, Copy, Default)]
pub struct Counts {
    cases: u64,
    differ: u64,
}

impl Counts {
    /// The sum of two counts.
    pub fn and(self, other: Counts) -> Counts {
        Counts {
            cases: self.cases.saturating_add(other.cases),
            differ: self.differ.saturating_add(other.differ),
        }
    }

    /// These counts; where there are no cases, one that differs.
    pub fn or_empty(self) -> Counts {
        if self.cases == 0 { ONE_DIFFERS } else { self }
    }

    /// Whether there are cases, and none differs.
    pub fn is_good(self) -> bool {
        self.cases > 0 && self.differ == 0
    }
}

impl fmt::Display for Counts {
    fn fmt<W: fmt::Write>(&self, f: &mut fmt::Formatter<W>) -> fmt::Result {
        write!(f, "{} cases, {} differ", self.cases, self.differ)
    }
}

// One case, which differs.
const ONE_DIFFERS: Counts = Counts {
    cases: 1,
    differ: 1,
};

/// Prints that a file can't be read as cases, which counts as one that differs.
pub fn report_file<W: Write>(file: &str, out: &mut W) -> io::Result<Counts> {
    writeln!(
        out,
        "{file}: it has no cases, or a line before the first command"
    )?;
    Ok(ONE_DIFFERS)
}

/// Prints where a case differs from its answers, if it does.
pub fn report_case<W: Write>(
    file: &str,
    case: &Case,
    answers: &[Answer],
    out: &mut W,
) -> io::Result<Counts> {
    if case.steps.is_empty() {
        return report_file(file, out);
    }
    for (place, step) in case.steps.iter().enumerate() {
        match answers.get(place) {
            Some(Ok(answer)) if is_same(answer, &step.wanted) => {}
            found => return report_step(file, &case.name, step, found, out),
        }
    }
    Ok(Counts {
        cases: 1,
        differ: 0,
    })
}

// Prints that the answer to a command differs from the expected one.
fn report_step<W: Write>(
    file: &str,
    case: &str,
    step: &Step,
    found: Option<&Answer>,
    out: &mut W,
) -> io::Result<Counts> {
    let (command, wanted, came) = (&step.command, &step.wanted, text_of(found));
    write!(
        out,
        "{file}: case {case}\n> {command}\nwanted:\n{wanted}came:\n{came}"
    )?;
    Ok(ONE_DIFFERS)
}

// The answer that came to a command.
fn text_of(found: Option<&Answer>) -> &str {
    match found {
        Some(Ok(answer)) => answer,
        Some(Err(CaseError::Unread)) => "the command can't be read\n",
        _ => "memory was refused\n",
    }
}
