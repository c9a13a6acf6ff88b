ghost use Rattle.transcript.specs.Laws.{HistoryHasEachOnce, HistoryHasNoOthers, LaterTurnsChangeNothing};
ghost use Rattle.transcript.specs.Laws.{LegalTurnsMakeAHistory, OneFormIsHad};

/// A session that agrees with the turns of a run still agrees once others have taken further turns.
pub fn later_turns_change_nothing()
    ensures { LaterTurnsChangeNothing }
{}

/// The history of legal turns has the entry of each accepted commit and forget once, in order, at the timestamp of its
/// reply.
pub fn history_has_each_once()
    ensures { HistoryHasEachOnce }
{}

/// Every entry of the history of legal turns is that of an accepted commit or forget.
pub fn history_has_no_others()
    ensures { HistoryHasNoOthers }
{}

/// Legal turns over a base make a history that keeps the rules of histories.
pub fn legal_turns_make_a_history()
    ensures { LegalTurnsMakeAHistory }
{}

/// A line has one form at most.
pub fn one_form_is_had()
    ensures { OneFormIsHad }
{}
