//! Sweeps: a script by one schedule after another, as where a client stops after each of its steps
//! in turn.
use crate::files::lines_of;
use crate::finding::Finding;
use anyhow::{Context, Result, bail};
use arena::Mode;
use audit::audit;
use ordered_map::Reply;
use player::play_by;
use record::{Answer, Line, Record};
use script::{read_schedule, read_script};
use std::alloc::{AllocError, Global};
use texts::Metered;

/// A mode, what each of its records has to show, and its texts, in which `|` is a new line. In the
/// schedule `N` is each of these numbers, and for each of them `M` is each of those.
#[derive(Clone, Copy)]
pub(crate) struct Sweep<'a> {
    mode: Mode,
    wanted: &'a str,
    numbers: (&'a str, &'a str),
    script: &'a str,
    schedule: &'a str,
}

impl<'a> Sweep<'a> {
    /// What a line says, with a `;` between any two of these.
    pub(crate) fn of(line: &'a str) -> Result<Sweep<'a>> {
        let (words, rest) = line.split_once(';').context(line)?;
        let (wanted, rest) = rest.split_once(';').context(line)?;
        let (first, rest) = rest.split_once(';').context(line)?;
        let (second, rest) = rest.split_once(';').context(line)?;
        let (script, schedule) = rest.split_once(';').context(line)?;
        Ok(Sweep {
            mode: mode_of(words)?,
            wanted,
            numbers: (first, second),
            script,
            schedule,
        })
    }

    /// How the first of its plays ends that does not end as it has to.
    pub(crate) fn find(self, alloc: Global) -> Result<Finding> {
        let firsts = numbers_of(alloc, self.numbers.0)?;
        let seconds = numbers_of(alloc, self.numbers.1)?;
        for first in firsts.iter() {
            for second in seconds.iter() {
                if !self.ends_well(alloc, *first, *second)? {
                    return Ok(Finding::Sweep(*first, *second));
                }
            }
        }
        Ok(Finding::AsExpected)
    }

    /// Whether its play with these numbers has a lawful record, which shows what is wanted.
    fn ends_well(self, alloc: Global, first: u64, second: u64) -> Result<bool> {
        let script = lines_of(alloc, self.script)?;
        let script = read_script(alloc, self.mode, &mut Metered::new(script.as_bytes()))?;
        let schedule = numbered(alloc, self.schedule, first, second)?;
        let schedule = read_schedule(alloc, &script, &mut Metered::new(schedule.as_bytes()))?;
        let record = play_by(alloc, &script, &schedule)?;
        Ok(audit(alloc, &record).is_ok() && self.shows(&record)?)
    }

    /// Whether a record shows what is wanted: `lawful` wants nothing more, `answered` that no call is
    /// left or refused, and a number that this many of the calls, all answered, are updates.
    fn shows(self, record: &Record) -> Result<bool> {
        let (answers, updates) = counts(record);
        let answered = answers == record.script.calls.len();
        Ok(match self.wanted {
            "lawful" => true,
            "answered" => answered,
            count => answered && updates == count.parse().ok().context(count)?,
        })
    }
}

fn mode_of(word: &str) -> Result<Mode> {
    match word {
        "tree" => Ok(Mode::Tree),
        "trie" => Ok(Mode::Trie),
        "records" => Ok(Mode::Records),
        _ => bail!("no mode: {word}"),
    }
}

/// The numbers that a text lists, each by itself or as the first and the last of a row of them.
fn numbers_of(alloc: Global, text: &str) -> Result<Vec<u64>> {
    let mut numbers = Vec::new(alloc);
    for part in text.split(' ') {
        let (first, last) = part.split_once('-').unwrap_or((part, part));
        let (first, last): (u64, u64) = (
            first.parse().ok().context(text)?,
            last.parse().ok().context(text)?,
        );
        for number in first..=last {
            numbers.push(number)?;
        }
    }
    Ok(numbers)
}

/// A schedule with its numbers, and with a new line for each `|`.
fn numbered(alloc: Global, schedule: &str, first: u64, second: u64) -> Result<String, AllocError> {
    let mut text = String::new(alloc);
    for letter in schedule.chars() {
        match letter {
            'N' => text.push_str(format!(in alloc; "{first}")?.as_str())?,
            'M' => text.push_str(format!(in alloc; "{second}")?.as_str())?,
            '|' => text.push('\n')?,
            letter => text.push(letter)?,
        }
    }
    Ok(text)
}

/// How many calls a record answers, but for refusals, and how many updates it has.
fn counts(record: &Record) -> (usize, usize) {
    let (mut answers, mut updates) = (0usize, 0usize);
    for line in record.lines.iter() {
        match line {
            Line::Reply(reply) if is_answer(&reply.answer) => answers = answers.saturating_add(1),
            Line::Log(_) => updates = updates.saturating_add(1),
            _ => {}
        }
    }
    (answers, updates)
}

fn is_answer(answer: &Answer) -> bool {
    match answer {
        Answer::Map(Reply::Contended { .. } | Reply::Full(_) | Reply::NoMemory) => false,
        _ => true,
    }
}
