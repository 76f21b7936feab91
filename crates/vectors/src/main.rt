// Replays a list of libm's answers: asks our functions the same, and counts what differs.
#![tactic(auto)]

ghost use Rattle.std.specs.Prelude.{◌≡◌, Some, IfSome};
ghost use Rattle.vectors.specs.Answers.{kind_of, function_of};
ghost use Rattle.vectors.specs.Tallies.{nothing, noted, tally_of, NotesOnly};

mod function;
mod question;

use angle::known::known_answers;
use anyhow::ensure;
use function::{Function, Kind, Precision};
use question::{Call, Question};
use std::fmt;
use std::io::{BufRead, BufReader};
use std::str::SplitWhitespace;

/// How many answers of a function were compared, and how many of them differ. The counts saturate,
/// and so does that of the lines that are not read.
#[derive(Clone, Copy, Default)]
struct Tally {
    compared: u32,
    differ: u32,
}

impl Tally {
    fn note(&mut self, same: bool)
        ensures { self.new ≡ noted self.old same }
    {
        self.compared = self.compared.saturating_add(1);
        if !same {
            self.differ = self.differ.saturating_add(1);
        }
    }
}

impl fmt::Display for Tally {
    fn fmt<W: fmt::Write>(&self, f: &mut fmt::Formatter<W>) -> fmt::Result {
        write!(f, "{} compared, {} differ", self.compared, self.differ)
    }
}

// A word as a pattern, in hexadecimal.
fn read_pattern<I: TryFrom<u64>>(word: &str) -> Option<I>
where
    I::Error: Drop,
{
    let n = u64::from_str_radix(word, 16).ok()?;
    I::try_from(n).ok()
}

fn read_call<I: TryFrom<u64> + Drop>(kind: Kind, words: &mut SplitWhitespace<'_>) -> Option<Call<I>>
where
    I::Error: Drop,
    ensures { IfSome result (λ call. kind_of call ≡ kind) }
{
    Some(match kind {
        Kind::Asin => Call::Asin(read_pattern(words.next()?)?),
        Kind::Acos => Call::Acos(read_pattern(words.next()?)?),
        Kind::Atan => Call::Atan(read_pattern(words.next()?)?),
        Kind::Atan2 => Call::Atan2(read_pattern(words.next()?)?, read_pattern(words.next()?)?),
        Kind::Sqrt => Call::Sqrt(read_pattern(words.next()?)?),
    })
}

fn read_question(function: Function, words: &mut SplitWhitespace<'_>) -> Option<Question>
    ensures { IfSome result (λ question. function_of question ≡ function) }
{
    Some(match function.precision {
        Precision::Wide => Question::Wide(read_call(function.kind, words)?),
        Precision::Narrow => Question::Narrow(read_call(function.kind, words)?),
    })
}

// The question and libm's answer of a line: a name, one or two readings, the answer.
fn read_line(line: &str) -> Option<(Question, u64)> {
    let mut words = line.split_whitespace();
    let function = words.next()?.parse::<Function>().ok()?;
    let question = read_question(function, &mut words)?;
    let answer = read_pattern(words.next()?)?;
    match words.next() {
        None => Some((question, answer)),
        Some(_) => None,
    }
}

/// The tally of each function, at its position, and how many lines could not be read.
#[derive(Drop)]
struct Report {
    tallies: [Tally; 10],
    unread: u32,
}

impl Report {
    fn new() -> Self
        ensures tallies { (f : Function) → tally_of result.tallies f ≡ Some nothing }
        ensures unread { result.unread ≡ 0 }
    {
        Report {
            tallies: [Tally::default(); 10],
            unread: 0,
        }
    }

    fn tally(&self, function: Function) -> Tally
        ensures { Some result ≡ tally_of self.now.tallies function }
    {
        self.tallies[function.position()]
    }

    fn note(&mut self, question: Question, same: bool)
        ensures tallies { NotesOnly (tally_of self.old.tallies) (tally_of self.new.tallies) (function_of question) same }
        ensures unread { self.new.unread ≡ self.old.unread }
    {
        self.tallies[question.position()].note(same);
    }

    // Asks the question of a line, if the line can be read.
    fn replay(&mut self, line: &str) {
        match read_line(line) {
            Some((question, answer)) => self.note(question, question.answer() == answer),
            None => self.unread = self.unread.saturating_add(1),
        }
    }
}

fn main(rt: HostRuntime) -> anyhow::Result<()> {
    ensure!(
        known_answers(),
        "known answers do not come: this program was not built as it is written"
    );
    let mut report = Report::new();
    for line in BufReader::new(rt.alloc(), rt.stdin())?.lines(rt.alloc()) {
        report.replay(line?.as_str());
    }
    for function in Function::all() {
        println!(rt; "{function}: {}", report.tally(function))?;
    }
    println!(rt; "lines not read: {}", report.unread)?;
    Ok(())
}
