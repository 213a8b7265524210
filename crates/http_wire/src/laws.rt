ghost use Rattle.http_wire.specs.Feeds.{TooManyAreCounted};
ghost use Rattle.http_wire.specs.Laws.{FoundHoweverCut, OneRequest, RefusedHoweverCut, CutInBody, EndsAtTheEnd, Phrases};

/// Laws: a request that is in the bytes is found however they are cut, and they begin with at most one; a
/// fault by the fields of a whole head is answered however they are cut, and so is a body that isn't whole;
/// the end is answered where no byte is left, and nowhere else; and the parser's error of too many fields
/// comes behind 34 counted line feeds alone.
pub fn request_laws()
    ensures found { FoundHoweverCut }
    ensures one { OneRequest }
    ensures refused { RefusedHoweverCut }
    ensures cut { CutInBody }
    ensures ended { EndsAtTheEnd }
    ensures counted { TooManyAreCounted }
{}

/// A law: the phrases of the statuses that the service answers with.
pub fn phrases_stand()
    ensures { Phrases }
{}
