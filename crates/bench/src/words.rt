//! The words of the command line.
ghost use Rattle.std.specs.Prelude.{◌≤◌, IfOk};
ghost use Rattle.std.specs.Result.{OkIff};
ghost use Rattle.bench.specs.Words.{IsNumberWithin, number_in};

use crate::fault::Fault;
use crate::task::Task;
use crate::work::Work;
use std::alloc::Global;
use std::rt::Env;
use std::{env, io};

/// The most words that there may be; the first is the program's own name.
const MOST_WORDS: usize = 6;

/// How many threads there are, and how often all is done, where the words do not say it.
const USUAL_THREADS: u32 = 1;

const USUAL_TIMES: u32 = 15;

/// The most keys: ten passes put all of them in.
const MOST_KEYS: u32 = 100_000;

/// The words that the program was given; the first is its own name.
pub fn words_of<R: Env + AllocGlobal>(rt: &R) -> Result<Vec<String>, Fault> {
    match env::args(rt) {
        Ok(words) => Ok(words.collect(rt.alloc())?),
        Err(error) if error.kind() == io::ErrorKind::OutOfMemory => Err(Fault::NoMemory),
        Err(_) => Err(Fault::Usage),
    }
}

/// The tasks that these words ask for: one, or one for each work.
pub fn tasks_of(alloc: Global, words: &[String]) -> Result<Vec<Task>, Fault> {
    let mut tasks = Vec::new(alloc);
    for work in Work::ALL {
        if asks_for(words, work) {
            tasks.push(task_of(words, work)?)?;
        }
    }
    if tasks.is_empty() {
        return Err(Fault::Usage);
    }
    Ok(tasks)
}

fn asks_for(words: &[String], work: Work) -> bool {
    match words.get(1) {
        Some(word) => work.is_asked_by(word.as_str()),
        None => false,
    }
}

/// The task of this work with the numbers that the words say.
fn task_of(words: &[String], work: Work) -> Result<Task, Fault> {
    if words.len() > MOST_WORDS {
        return Err(Fault::Usage);
    }
    let bounds = work.bounds();
    Ok(Task {
        work,
        threads: number_at(words, 2, (1, bounds.threads), USUAL_THREADS)?,
        calls: number_at(words, 3, (1, bounds.calls), bounds.usual_calls)?,
        times: number_at(words, 4, (0, u32::MAX), USUAL_TIMES)?,
        keys: number_at(words, 5, (1, MOST_KEYS), bounds.usual_keys)?,
    })
}

/// The number that the word at this place says, within these bounds, or the usual one where there
/// is no such word.
fn number_at(words: &[String], place: usize, bounds: (u32, u32), usual: u32) -> Result<u32, Fault>
    requires some { bounds.0 ≤ usual }
    requires within { usual ≤ bounds.1 }
    ensures some { IfOk result (λ n. bounds.0 ≤ n) }
    ensures within { IfOk result (λ n. n ≤ bounds.1) }
{
    match words.get(place) {
        Some(word) => number_of(word.as_str(), bounds.0, bounds.1),
        None => Ok(usual),
    }
}

/// The number from `least` to `most` that a word says in decimal digits.
pub fn number_of(word: &str, least: u32, most: u32) -> Result<u32, Fault>
    ensures { OkIff result (IsNumberWithin least most word.now) (number_in word.now) }
{
    match word.parse::<u32>() {
        Ok(number) if least <= number && number <= most => Ok(number),
        _ => Err(Fault::Usage),
    }
}
