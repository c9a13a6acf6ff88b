ghost use Rattle.doc_meaning.specs.Laws.{AndSatisfiesEach, NearHoldsFurther, NearIsAChoice, RisingRises};
ghost use Rattle.doc_meaning.specs.Laws.{WordsAreMaximalRuns};
ghost use Rattle.doc_meaning.specs.Laws.{AnswersAreSorted, EstimateIsNoLess, SatisfiesMaybe, SureSatisfies};
ghost use Rattle.doc_meaning.specs.Laws.{FirstEndsThere, FirstIsTheSame, LaterEntriesChangeNothing, ShownIsABase};
ghost use Rattle.doc_meaning.specs.Laws.{ShownIsTheSame};
ghost use Rattle.doc_meaning.specs.Laws.{OthersStay, PutIsLive, RemovedIsGone};

/// The words of a text are exactly its maximal runs of word characters.
pub fn words_are_maximal_runs()
    ensures { WordsAreMaximalRuns }
{}

/// An answer is in the order of the bytes of its URIs, and has none twice.
pub fn answers_are_sorted()
    ensures { AnswersAreSorted }
{}

/// A document satisfies an and-query exactly where it satisfies each child.
pub fn and_satisfies_each()
    ensures { AndSatisfiesEach }
{}

/// Near is a choice of one start per child.
pub fn near_is_a_choice()
    ensures { NearIsAChoice }
{}

/// Numbers rise where each is below the next.
pub fn rising_rises()
    ensures { RisingRises }
{}

/// Near holds with every greater distance.
pub fn near_holds_further()
    ensures { NearHoldsFurther }
{}

/// A document that passes the first test of a query that breaks no rule satisfies it.
pub fn sure_satisfies()
    ensures { SureSatisfies }
{}

/// A document that satisfies a query that breaks no rule passes the second test.
pub fn satisfies_maybe()
    ensures { SatisfiesMaybe }
{}

/// No fewer documents are estimated than answered, of a query that breaks no rule.
pub fn estimate_is_no_less()
    ensures { EstimateIsNoLess }
{}

/// Further entries change no earlier database.
pub fn later_entries_change_nothing()
    ensures { LaterEntriesChangeNothing }
{}

/// What a commit of distinct URIs puts is live at the new front, under the new timestamp.
pub fn put_is_live()
    ensures { PutIsLive }
{}

/// What a commit of distinct URIs removes is gone at the new front.
pub fn removed_is_gone()
    ensures { RemovedIsGone }
{}

/// A URI that a commit doesn't name stays as it was.
pub fn others_stay()
    ensures { OthersStay }
{}

/// What is shown of a history has its front, merge timestamp and settings, and its databases between.
pub fn shown_is_the_same()
    ensures { ShownIsTheSame }
{}

/// What is shown of a history is a base again.
pub fn shown_is_a_base()
    ensures { ShownIsABase }
{}

/// The first entries have the same databases up to there.
pub fn first_is_the_same()
    ensures { FirstIsTheSame }
{}

/// The first entries end at that timestamp.
pub fn first_ends_there()
    ensures { FirstEndsThere }
{}
