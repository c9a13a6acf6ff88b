//! Laws of the first entries of a history, those up to a timestamp.
ghost use Rattle.doc_meaning.specs.PrefixLaws.{FirstIsAHistory, FirstMergesEarlier, FirstOfFirst, FirstVersionsStay};

/// The first entries of a well-formed history are a well-formed history.
pub fn first_is_a_history()
    ensures { FirstIsAHistory }
{}

/// Their merge timestamp is at most the timestamp where they end, and at most that of all entries.
pub fn first_merges_earlier()
    ensures { FirstMergesEarlier }
{}

/// The first of the first entries are the first of all.
pub fn first_of_first()
    ensures { FirstOfFirst }
{}

/// A version of the first entries is a version of all.
pub fn first_versions_stay()
    ensures { FirstVersionsStay }
{}
