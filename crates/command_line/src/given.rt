// The words that the program is started with.
ghost use Rattle.std.specs.Prelude.{◌≡◌, ◌≢◌, ◌⊎◌, ◌↔◌, map, drop, IfOk, IfErr, IsOkAnd, IsErrAnd, IsErrOf};
ghost use Rattle.std.specs.String.{string_bytes};
ghost use Rattle.std.specs.Vec.Iter.{into_iter_items};
ghost use Rattle.std.specs.IoError.{error_kind};

use crate::answer::Status;
use scitt_io::{OutOfMemory, Words};
use std::alloc::Global;
use std::env::Args;
use std::io;
use std::io::ErrorKind;

/// A word isn't UTF-8.
const WORDS_REFUSED: Status = 2;

/// There is no memory for the words.
const NO_MEMORY: Status = 5;

/// The words of the command line behind the program's name, else the status to end with: 2 where a word
/// isn't UTF-8, 5 where there is no memory for them.
pub fn words_given(alloc: Global, args: io::Result<Args>) -> Result<Words, Status>
    ensures words { IfOk result (λ words. IsOkAnd args (λ given. words ≡ map string_bytes (drop 1 (into_iter_items given)))) }
    ensures refused { IsErrOf result 2 ↔ IsErrAnd args (λ error. error_kind error ≢ ErrorKind.OutOfMemory) }
    ensures no_memory { IsErrAnd args (λ error. error_kind error ≡ ErrorKind.OutOfMemory) → IsErrOf result 5 }
    ensures no_other { IfErr result (λ status. (status ≡ 2) ⊎ (status ≡ 5)) }
{
    match args {
        Ok(given) => words_behind(alloc, given).map_err(|_| NO_MEMORY),
        Err(error) if error.kind() == ErrorKind::OutOfMemory => Err(NO_MEMORY),
        Err(_) => Err(WORDS_REFUSED),
    }
}

/// The words behind the first.
fn words_behind(alloc: Global, mut given: Args) -> Result<Words, OutOfMemory>
    ensures { IfOk result (λ words. words ≡ map string_bytes (drop 1 (into_iter_items given))) }
{
    let _name = given.next();
    let mut words = Words::new(alloc);
    while let Some(word) = given.next() {
        words.push(word.as_str())?;
    }
    Ok(words)
}
