// What a new statement is to claim.

ghost use Rattle.std.specs.Prelude.{◌≡◌};
ghost use Rattle.scitt_draft.specs.Drafts.{claimed, names_fit as are_names_fit};

/// The most bytes that an issuer, a subject or a type has.
const LONGEST_NAME: usize = 1024;

/// What a new statement is to claim (RFC 8392, 3.1; RFC 9052, 3.1).
#[derive(Drop)]
pub struct Claims<'a> {
    /// Who says it, 1 to 1,024 bytes.
    pub issuer: &'a str,
    /// Of what it is said, 1 to 1,024 bytes.
    pub subject: &'a str,
    /// The type of the payload, at most 1,024 bytes.
    pub content_type: &'a str,
    /// The moment from which it is meant, in seconds since 1970.
    pub not_before: Option<u64>,
    /// The moment up to which it is meant, in seconds since 1970.
    pub expires: Option<u64>,
}

impl Claims<'_> {
    /// Whether the texts are within their limits.
    pub fn names_fit(&self) -> bool
        ensures { result ≡ are_names_fit (claimed self.now) }
    {
        !self.issuer.is_empty()
            && self.issuer.len() <= LONGEST_NAME
            && !self.subject.is_empty()
            && self.subject.len() <= LONGEST_NAME
            && self.content_type.len() <= LONGEST_NAME
    }
}
