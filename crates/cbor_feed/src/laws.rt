ghost use Rattle.cbor_feed.specs.Pieces.{AsTheWhole, EndsAsTheWhole};

/// A law: however the bytes are cut into pieces, the last piece is answered as a decoder of all the bytes so far answers, unless memory
/// runs out: `NeedMore` exactly where their fault is `Truncated`, `Fault` by another one, and `Done` where an item ends among them. And
/// what the feed gives in the end is the item, or the fault, of that decoder.
pub fn pieces_are_read_as_the_whole()
    ensures answer { AsTheWhole }
    ensures end { EndsAsTheWhole }
{}
