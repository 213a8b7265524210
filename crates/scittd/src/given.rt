// What the program's words give.

ghost use Rattle.std.specs.Prelude.{◌≡◌, ◌≢◌, ◌≤◌, ◌⊎◌, ◌↔◌, [], None, Some, false, IfOk, IfErr, IfSome, OnOk, IsErrOf, IsOkAnd, IsErrAnd, map, option_map};
ghost use Rattle.std.specs.IoError.{error_kind};
ghost use Rattle.std.specs.String.{string_bytes};
ghost use Rattle.std.specs.Vec.Iter.{into_iter_items};
ghost use Rattle.clap.specs.Words.{app_of, fault_of, first_of, found_of, matches_of, rule_of, rows_of};
ghost use Rattle.scittd.specs.Words.{app, given_in, names_among, names_of, needed as needed_rule, workers_from};
ghost use Rattle.scittd.specs.declared.fault.StartFault.TheVariants.{WordsRefused, NoMemory};

use crate::fault::StartFault;
use clap::error::ErrorKind;
use clap::{Arg, ArgMatches, Command};
use std::alloc::{AllocError, Global};
use std::env::Args;
use std::io;
use std::io::ErrorKind as IoKind;

/// What the server is started with.
#[derive(Clone, Copy)]
pub struct Given<'a> {
    /// The name of the log's file.
    pub log: &'a str,
    /// The name of the seed file.
    pub seed: &'a str,
    /// The name of the parameter file.
    pub params: &'a str,
    /// The address to listen at.
    pub listen: &'a str,
    /// How many workers there are, 1 to 8.
    pub workers: usize,
}

/// A number from 1 to 8, in decimal digits without a leading zero.
fn workers_of(word: &str) -> Option<usize>
    ensures number { result ≡ workers_from word.now }
    ensures workers { IfSome result (λ n. (1 ≤ n) × (n ≤ 8)) }
{
    match word.as_bytes() {
        [digit] if (b'1'..=b'8').contains(digit) => Some(usize::from(*digit - b'0')),
        _ => None,
    }
}

/// One required positional argument.
fn needed<'a>(alloc: Global, id: &'a str) -> Arg<'a>
    ensures rule { rule_of result ≡ needed_rule id.entry.now }
    ensures local { result.global ≡ false }
{
    Arg::new(alloc, id).required(true)
}

/// The command: five required positional arguments.
fn command<'a>(alloc: Global) -> Result<Command<'a>, AllocError>
    ensures { IfOk result (λ c. app_of c ≡ app) }
{
    Command::new(alloc, "scittd")
        .arg(needed(alloc, "LOG"))?
        .arg(needed(alloc, "SEED"))?
        .arg(needed(alloc, "PARAMS"))?
        .arg(needed(alloc, "LISTEN"))?
        .arg(needed(alloc, "WORKERS"))
}

/// The parse of these words by the command. `WordsRefused` where it has a fault, and `NoMemory` is the want of memory alone.
fn parsed<'a>(command: Command<'a>, words: &'a [String]) -> Result<ArgMatches<'a>, StartFault>
    requires { app_of command ≡ app }
    ensures matches { IfOk result (λ m. rows_of (found_of m) ≡ matches_of app (map string_bytes words.entry.now)) }
    ensures fits { OnOk result (fault_of app (map string_bytes words.entry.now) ≡ []) }
    ensures refused { IsErrOf result WordsRefused → fault_of app (map string_bytes words.entry.now) ≢ [] }
    ensures no_other { IfErr result (λ fault. (fault ≡ WordsRefused) ⊎ (fault ≡ NoMemory)) }
{
    match command.try_get_matches_from(words) {
        Ok(matches) => Ok(matches),
        Err(error) => match error.kind() {
            ErrorKind::OutOfMemory => Err(StartFault::NoMemory),
            _ => Err(StartFault::WordsRefused),
        },
    }
}

/// The word that an argument has.
fn word<'a>(matches: &ArgMatches<'a>, id: &str) -> Option<&'a str>
    ensures { option_map (λ s. s.now) result ≡ first_of id.now (rows_of (found_of matches.now)) }
{
    matches.get_str(id)
}

/// What the matches of the command give.
fn given_of<'a>(matches: &ArgMatches<'a>) -> Option<Given<'a>>
    ensures names { option_map names_of result ≡ names_among (rows_of (found_of matches.now)) }
    ensures workers { IfSome result (λ given. (1 ≤ given.workers) × (given.workers ≤ 8)) }
{
    Some(Given {
        log: word(matches, "LOG")?,
        seed: word(matches, "SEED")?,
        params: word(matches, "PARAMS")?,
        listen: word(matches, "LISTEN")?,
        workers: workers_of(word(matches, "WORKERS")?)?,
    })
}

/// What the words of the command line give, of which the first is the program's name.
///
/// `WordsRefused` exactly where the parse refuses them for another cause than memory, or the last isn't a number from 1 to 8;
/// `NoMemory` is the want of memory alone.
pub fn given_by<'a>(alloc: Global, words: &'a [String]) -> Result<Given<'a>, StartFault>
    ensures given { IfOk result (λ given. given_in (map string_bytes words.entry.now) ≡ Some (names_of given)) }
    ensures workers { IfOk result (λ given. (1 ≤ given.workers) × (given.workers ≤ 8)) }
    ensures refused { IsErrOf result WordsRefused → given_in (map string_bytes words.entry.now) ≡ None }
    ensures no_other { IfErr result (λ fault. (fault ≡ WordsRefused) ⊎ (fault ≡ NoMemory)) }
{
    let Ok(command) = command(alloc) else {
        return Err(StartFault::NoMemory);
    };
    let matches = parsed(command, words)?;
    match given_of(&matches) {
        Some(given) => Ok(given),
        None => Err(StartFault::WordsRefused),
    }
}

fn collected(alloc: Global, mut args: Args) -> Result<Vec<String>, AllocError>
    ensures { IfOk result (λ words. words.items ≡ into_iter_items args) }
{
    let mut words = Vec::new(alloc);
    while let Some(word) = args.next() {
        words.push(word)?;
    }
    Ok(words)
}

/// The words of the command line. `WordsRefused` exactly where the standard library refused to read them for another cause than memory,
/// which is a word that isn't UTF-8; `NoMemory` where it found none, or there was none for the words.
pub fn words_of(alloc: Global, args: io::Result<Args>) -> Result<Vec<String>, StartFault>
    ensures words { IfOk result (λ words. IsOkAnd args (λ given. words.items ≡ into_iter_items given)) }
    ensures refused { IsErrOf result WordsRefused ↔ IsErrAnd args (λ error. error_kind error ≢ IoKind.OutOfMemory) }
    ensures no_other { IfErr result (λ fault. (fault ≡ WordsRefused) ⊎ (fault ≡ NoMemory)) }
{
    match args {
        Ok(args) => collected(alloc, args).map_err(|_| StartFault::NoMemory),
        Err(error) if error.kind() == IoKind::OutOfMemory => Err(StartFault::NoMemory),
        Err(_) => Err(StartFault::WordsRefused),
    }
}
