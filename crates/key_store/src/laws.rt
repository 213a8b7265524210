ghost use Rattle.key_store.specs.Histories.{NoIndexTwice, StaysSound};

/// What holds of every list of calls, stops and loads of a key file: no index is given twice, and a load after any of them
/// finds a key file of the same key.
pub fn key_laws()
    ensures once { NoIndexTwice }
    ensures sound { StaysSound }
{}
