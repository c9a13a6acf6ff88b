//! Stops at each device call of a script, and what is found after them.

use crate::directory::Logs;
use crate::running::{Ended, logs_behind, opening, ran, ran_script, told};
use crate::script::{Faults, Script, no_faults};
use std::alloc::{AllocError, Global};

/// How many lines these replies acknowledge.
fn acknowledged(replies: &[u8]) -> usize {
    replies
        .split(|byte| *byte == b'\n')
        .filter(|line| line.starts_with(b"ok "))
        .count()
}

/// The first so many lines.
fn first(alloc: Global, input: &[u8], count: usize) -> Result<Vec<u8>, AllocError> {
    let mut lines = Vec::new(alloc);
    for line in input.split(|byte| *byte == b'\n').take(count) {
        lines.extend_from_slice(line)?;
        lines.extend_from_slice(b"\n")?;
    }
    Ok(lines)
}

/// How many lines these are.
fn lines_of(input: &[u8]) -> usize {
    input.iter().filter(|byte| **byte == b'\n').count()
}

/// The answers to a question, in turn.
type Answers = Vec<Vec<u8>>;

/// The answer to the question of a script after its first so many lines.
fn wanted(
    alloc: Global,
    script: &Script,
    logs: &Logs,
    count: usize,
) -> Result<Vec<u8>, AllocError> {
    let mut lines = first(alloc, &script.input, count)?;
    lines.extend_from_slice(&script.question)?;
    let ended = ran(alloc, logs, "/run/d/", &lines, 4096, no_faults())?;
    let mut answer = Vec::new(alloc);
    for line in told(&ended).split(|byte| *byte == b'\n').skip(count) {
        answer.extend_from_slice(line)?;
        answer.extend_from_slice(b"\n")?;
    }
    answer.pop();
    Ok(answer)
}

/// The answers to the question of a script after its first lines: none, one, two and so on up to all.
fn all_wanted(alloc: Global, script: &Script, logs: &Logs) -> Result<Answers, AllocError> {
    let mut answers = Vec::new(alloc);
    for count in 0..=lines_of(&script.input) {
        answers.push(wanted(alloc, script, logs, count)?)?;
    }
    Ok(answers)
}

/// The answer to the question over these logs.
fn answer(alloc: Global, script: &Script, logs: &Logs) -> Result<Vec<u8>, AllocError> {
    let ended = ran(alloc, logs, "/run/d/", &script.question, 4096, no_faults())?;
    told(&ended).to_vec(alloc)
}

/// Whether an answer is the one after so many lines, or after one more.
fn is_answer(answers: &Answers, count: usize, found: &[u8]) -> bool {
    answers
        .iter()
        .skip(count)
        .take(2)
        .any(|wanted| wanted.as_slice() == found)
}

/// More images than a stop leaves in any script.
const MOST: u64 = 1_000;

/// Whether each image after a stop shows the lines that were acknowledged, or one more. The images are those where 0
/// bytes, a step, two and so on of what isn't sure are there, up to the first that is like the one before.
fn shows(
    alloc: Global,
    script: &Script,
    answers: &Answers,
    ended: &Ended,
    step: u64,
) -> Result<bool, AllocError> {
    let count = acknowledged(told(ended));
    let mut before: Logs = Vec::new(alloc);
    for place in 0..MOST {
        let image = logs_behind(alloc, ended, place.saturating_mul(step))?;
        if image == before {
            return Ok(true);
        }
        let found = answer(alloc, script, &image)?;
        if !is_answer(answers, count, &found) {
            return Ok(false);
        }
        before = image;
    }
    Ok(false)
}

/// The stops of a script after which something else is found, a line each.
pub fn swept(alloc: Global, script: &Script, logs: &Logs, step: u64) -> Result<String, AllocError> {
    let mut out = String::new(alloc);
    let opening = opening(alloc, logs)?;
    let answers = all_wanted(alloc, script, logs)?;
    let all = ran_script(alloc, logs, script, no_faults(), 0)?.calls;
    for stop in 0..all.saturating_sub(opening) {
        let faults = Faults {
            stop: Some(stop),
            ..no_faults()
        };
        let ended = ran_script(alloc, logs, script, faults, opening)?;
        if !shows(alloc, script, &answers, &ended, step)? {
            write!(out, "  stopped at {stop}\n")?;
        }
    }
    Ok(out)
}
