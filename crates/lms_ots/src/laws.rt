// Laws over words and parts of byte strings, and over all one-time keys.

ghost use Rattle.lms_ots.specs.Laws.{OtsLaws, WordLaws};

/// Words and parts of a byte string are read again where they stand, and joined strings are taken
/// apart again.
pub fn word_law()
    ensures { WordLaws }
{}

/// A type is found by its code, and a secret has 32 bytes. The steps of a chain up to some place and
/// those from there on make the whole chain, so a signature of any seed, on any message, has its type's
/// code and length, and the seed's key as its candidate key.
pub fn ots_law()
    ensures { OtsLaws }
{}
