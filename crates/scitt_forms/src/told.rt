// A refusal in words.

ghost use Rattle.std.specs.Prelude.{◌≡◌, ◌++◌, IfOk, OnOk};
ghost use Rattle.std.specs.String.{string_bytes};
ghost use Rattle.std.specs.Fmt.{decimal};
ghost use Rattle.scitt_forms.specs.RefusalText.{reason, table_text, refusal_text};

use crate::refusal::{Place, Refusal, Why, Word};
use std::alloc::{AllocError, Global};

fn reason(why: Why) -> &'static str
    ensures { result.now ≡ reason why }
{
    match why {
        Why::Toml => "toml",
        Why::Missing => "missing",
        Why::Kind => "kind",
        Why::Hex => "hex",
        Why::Negative => "negative",
        Why::Unknown => "unknown",
        Why::Deep => "deep",
        Why::Both => "both",
        Why::Named => "named",
        Why::Limits => "limits",
    }
}

fn table_text(alloc: Global, list: Word, index: usize) -> Result<String, AllocError>
    ensures { IfOk result (λ text. string_bytes text ≡ table_text list index) }
{
    match list {
        Word::Form => Ok(String::new(alloc)),
        list => {
            let name = list.name();
            format!(in alloc; "{name} {index} ")
        }
    }
}

impl Refusal {
    /// The refusal in words: the table by its list and its index there, unless it is the form as a whole, then the key and the reason, as
    /// `rule 2 id missing`. `AllocError` is the want of memory alone.
    pub fn text(&self, alloc: Global) -> Result<String, AllocError>
        ensures { IfOk result (λ text. string_bytes text ≡ refusal_text self.now) }
    {
        let mut text = table_text(alloc, self.place.list, self.place.index)?;
        text.push_str(self.word.name())?;
        text.push_str(" ")?;
        text.push_str(reason(self.why))?;
        Ok(text)
    }
}
