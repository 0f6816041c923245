//! The driver of a case's commands.

use crate::case::{Case, CaseError};
use crate::text::Text;
use crate::words::Words;
use std::alloc::Global;

/// The answer to a command, or why it has none.
pub type Answer = Result<String, CaseError>;

/// Runs the commands of a case, one after another.
pub trait Driver {
    /// Runs the command of this name, with the words that follow it, and writes its answer.
    fn answer(&mut self, name: &str, words: &mut Words<'_>, text: &mut Text);
}

// The answer to a command.
fn answer_of<D: Driver>(alloc: Global, driver: &mut D, command: &str) -> Answer {
    let mut text = Text::new(alloc);
    let mut words = Words::of(command);
    let name = words.word();
    driver.answer(name, &mut words, &mut text);
    match words.fault() {
        Some(fault) => Err(fault),
        None => text.finish(),
    }
}

/// The answers to a case's commands, up to the first that has none.
pub fn answers<D: Driver>(alloc: Global, case: &Case, driver: &mut D) -> Vec<Answer> {
    let mut answers = Vec::new(alloc);
    for step in &case.steps {
        let answer = answer_of(alloc, driver, &step.command);
        let fails = answer.is_err();
        if answers.push(answer).is_err() || fails {
            break;
        }
    }
    answers
}
