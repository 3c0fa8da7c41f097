// What a line asks for.
ghost use Rattle.std.specs.Prelude.{◌≤◌, length};

use std::alloc::{AllocError, Global};

/// A task. Numbers are hexadecimal.
#[derive(Drop)]
pub enum Task {
    /// `spell WORD`: what the word spells.
    Spell(u32),
    /// `step WORD A1 A2`: what it does to registers that hold these numbers.
    Step(u32, u64, u64),
    /// `call TURNS A0 WORD ..`: how a call of the words ends.
    Call(u64, u64, Vec<u32>),
}

/// The task of a line; none where it is no task.
pub fn read_task(alloc: Global, line: &str) -> Result<Option<Task>, AllocError> {
    let parts: Vec<&str> = line.split_whitespace().collect(alloc)?;
    match *parts.as_slice() {
        ["spell", word] => match word_of(word) {
            Some(word) => Ok(Some(Task::Spell(word))),
            None => Ok(None),
        },
        ["step", word, a1, a2] => Ok(step_of(word, a1, a2)),
        ["call", turns, a0, ..] => call_of(alloc, turns, a0, &parts[3..]),
        _ => Ok(None),
    }
}

fn step_of(word: &str, a1: &str, a2: &str) -> Option<Task> {
    let word = word_of(word)?;
    let a1 = number_of(a1)?;
    let a2 = number_of(a2)?;
    Some(Task::Step(word, a1, a2))
}

fn call_of(
    alloc: Global,
    turns: &str,
    a0: &str,
    texts: &[&str],
) -> Result<Option<Task>, AllocError> {
    let words = match words_of(alloc, texts)? {
        Some(words) => words,
        None => return Ok(None),
    };
    match (number_of(turns), number_of(a0)) {
        (Some(turns), Some(a0)) => Ok(Some(Task::Call(turns, a0, words))),
        _ => Ok(None),
    }
}

fn words_of(alloc: Global, texts: &[&str]) -> Result<Option<Vec<u32>>, AllocError> {
    let mut words = Vec::new(alloc);
    for text in texts {
        match word_of(text) {
            Some(word) => words.push(word)?,
            None => return Ok(None),
        }
    }
    Ok(Some(words))
}

fn number_of(text: &str) -> Option<u64> {
    u64::from_str_radix(text, 16).ok()
}

fn word_of(text: &str) -> Option<u32> {
    u32::from_str_radix(text, 16).ok()
}
