ghost use Rattle.std.specs.Prelude.{◌≡◌, ◌≤◌, ◌++◌, IfOk, codes};
ghost use Rattle.std.specs.String.{string_bytes};
ghost use Rattle.std.specs.Fmt.{decimal};
ghost use Rattle.generator.specs.declared.generating.Summary.{Summary};
ghost use Rattle.scitt_tool.specs.Generate.{GenerateOf, count_named as count_of_word, summary_lines};

use crate::lines::push_line;
use crate::numbers::number_upto;
use command_line::Answer;
use generator::Summary;
use std::alloc::{AllocError, Global};
use std::marker::Model;

/// The most statements.
const MOST: u64 = 2_000;

/// How many statements a log is to have, 1 to 2,000.
#[derive(Clone, Copy)]
pub(crate) struct Count {
    number: u32,
}

impl Model for Count {
    ghost use Rattle.std.specs.Prelude.{ℕ, ◌≤◌, ◌≡◌};

    ghost Value = { ℕ };

    ghost view = { λ c. c.number };

    ghost inverse = { λ n. record { number = n } };

    ghost invariant = { λ c. c.number ≤ 2000 };
}

impl Count {
    fn get(&self) -> u32
        ensures value { result ≡ self.now }
        ensures most { result ≤ 2000 }
    {
        self.number
    }
}

/// The number of statements that a word says.
pub(crate) fn count_named(text: &str) -> Option<Count>
    ensures { result ≡ count_of_word text.now }
{
    let number = number_upto(text, MOST)?;
    if number < 1 {
        return None;
    }
    Some(Count {
        number: number as u32,
    })
}

// What is told of a log of so many statements.
fn lines(alloc: Global, count: u32, summary: &Summary) -> Result<String, AllocError>
    ensures { IfOk result (λ text. string_bytes text ≡ summary_lines count summary.now) }
{
    let count = format!(in alloc; "{count}")?;
    let admitted = summary.admitted;
    let admitted = format!(in alloc; "{admitted}")?;
    let denied = summary.denied;
    let denied = format!(in alloc; "{denied}")?;
    let entries = summary.entries;
    let entries = format!(in alloc; "{entries}")?;
    let root = hex::encode(alloc, summary.root.as_slice())?;
    let mut text = String::new(alloc);
    push_line(&mut text, "statements ", count.as_str())?;
    push_line(&mut text, "admitted ", admitted.as_str())?;
    push_line(&mut text, "denied ", denied.as_str())?;
    push_line(&mut text, "entries ", entries.as_str())?;
    push_line(&mut text, "root ", root.as_str())?;
    push_line(&mut text, "audit ", "clean")?;
    Ok(text)
}

/// What `generate` answers: a log of so many stated statements is made in memory and audited. Where a call of its disk fails memory is
/// wanting, since none is made to fail.
pub(crate) fn generate(alloc: Global, count: &Count) -> Result<Answer, AllocError>
    ensures { IfOk result (GenerateOf count.now) }
{
    let count = count.get();
    let summary = generator::generate(alloc, count)?;
    let text = lines(alloc, count, &summary)?;
    Ok(Answer::made(0, text))
}
