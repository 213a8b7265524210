// What a program answers: a status, and what it writes.

ghost use Rattle.std.specs.Prelude.{◌≡◌, ◌≤◌, is_some};
ghost use Rattle.command_line.specs.Answer.{Says, words_refused, unread};

use cbor_core::Bytes;
use scitt_io::{Sink, write_all};
use std::marker::Model;

/// The exit status of the program.
pub type Status = u8;

/// What a command answers: a status, and lines of text, or bytes.
#[derive(Drop)]
pub struct Answer {
    status: Status,
    text: Text,
}

#[derive(Drop)]
enum Text {
    Fixed(&'static str),
    Made(String),
    Bytes(Bytes),
}

impl Model for Answer {
    ghost use Rattle.command_line.specs.Answer.{Answer as Answered};

    ghost Value = { Answered };

    ghost use Rattle.command_line.specs.Text.{bytes_of};

    ghost view = { λ a. record { status = a.status; text = bytes_of a.text } };
}

impl Answer {
    ghost use Rattle.std.specs.String.{string_bytes};

    /// An answer whose text is known beforehand. It takes no memory.
    pub fn fixed(status: Status, text: &'static str) -> Self
        ensures { result ≡ record { status = status; text = text.now } }
    {
        Answer {
            status,
            text: Text::Fixed(text),
        }
    }

    /// An answer whose text was made.
    pub fn made(status: Status, text: String) -> Self
        ensures { result ≡ record { status = status; text = string_bytes text } }
    {
        Answer {
            status,
            text: Text::Made(text),
        }
    }

    /// An answer of bytes.
    pub fn bytes(status: Status, bytes: Bytes) -> Self
        ensures { result ≡ record { status = status; text = bytes } }
    {
        Answer {
            status,
            text: Text::Bytes(bytes),
        }
    }

    /// Writes the text. The answer's status stands where all of it was written, else 4.
    pub fn say<K: Sink>(&self, out: &mut K) -> Status
        ensures says { Says self.now (K.taken out.old) (K.taken out.new) (K.refused out.old) (K.refused out.new) result }
        ensures later { K.refused out.old ≤ K.refused out.new }
        ensures telling { is_some (K.taken out.new) ≡ is_some (K.taken out.old) }
    {
        let text = match &self.text {
            Text::Fixed(text) => text.as_bytes(),
            Text::Made(text) => text.as_bytes(),
            Text::Bytes(bytes) => bytes.as_slice(),
        };
        match write_all(out, text) {
            Ok(()) => self.status,
            Err(_) => 4,
        }
    }
}

/// The words name no command: status 2.
pub fn words_refused() -> Answer
    ensures { result ≡ words_refused }
{
    Answer::fixed(2, "words refused\n")
}

/// A read was refused: status 3.
pub fn unread() -> Answer
    ensures { result ≡ unread }
{
    Answer::fixed(3, "read fault\n")
}
