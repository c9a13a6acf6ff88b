//! Laws of what the JSON of queries says, each as the contract of a function that does nothing.

ghost use Rattle.cts_meaning.specs.Laws.{CanonicalTextsAreRead, EachTreeIsJudged, FaultsLieInside, OneQueryIsSaid};

/// A tree is one query at most.
pub fn one_query_is_said()
    ensures { OneQueryIsSaid }
{}

/// The number of a fault is that of a node of the tree.
pub fn faults_lie_inside()
    ensures { FaultsLieInside }
{}

/// A tree is a query, or has a first fault.
pub fn each_tree_is_judged()
    ensures { EachTreeIsJudged }
{}

/// The canonical text of a query is read as that query.
pub fn canonical_texts_are_read()
    ensures { CanonicalTextsAreRead }
{}
