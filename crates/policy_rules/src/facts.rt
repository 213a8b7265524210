// What rules are asked about.

ghost use Rattle.std.specs.Prelude.{◌≡◌, IfOk};

use cbor_core::Text;
use std::alloc::{AllocError, Global};

/// A statement's content type.
#[derive(Drop)]
pub enum ContentKind {
    Absent,
    Named(Text),
    Number(u64),
}

/// What rules are asked about.
#[derive(Drop)]
pub struct Facts {
    pub issuer: Text,
    pub subject: Text,
    pub content_type: ContentKind,
    pub payload_len: u64,
}

fn kind_copied(alloc: Global, kind: &ContentKind) -> Result<ContentKind, AllocError>
    ensures { IfOk result (λ copy. copy ≡ kind.now) }
{
    match kind {
        ContentKind::Absent => Ok(ContentKind::Absent),
        ContentKind::Named(text) => Ok(ContentKind::Named(Text::from_str(alloc, text.as_str())?)),
        ContentKind::Number(n) => Ok(ContentKind::Number(*n)),
    }
}

impl Facts {
    /// A copy.
    pub fn copied(&self, alloc: Global) -> Result<Facts, AllocError>
        ensures { IfOk result (λ copy. copy ≡ self.now) }
    {
        let issuer = Text::from_str(alloc, self.issuer.as_str())?;
        let subject = Text::from_str(alloc, self.subject.as_str())?;
        let content_type = kind_copied(alloc, &self.content_type)?;
        Ok(Facts {
            issuer,
            subject,
            content_type,
            payload_len: self.payload_len,
        })
    }
}
