//! Laws of sessions, and of how runs are concluded. Each function's contract states a law; its body does nothing.
ghost use Rattle.felm_session.specs.Laws.{SettledSessionsHaveRoom, WithoutAsyncsOneEnd};

/// Where every node has taken its turn at every event, no feed and no entry answers that a source
/// has no room: only the limit of the journal can stop it.
pub fn settled_sessions_have_room()
    ensures { SettledSessionsHaveRoom }
{}

/// Without asyncs it is all one in which order events enter and turns are taken: two runs of a plan
/// that are complete, on threads or on one, have the same history.
pub fn without_asyncs_one_end()
    ensures { WithoutAsyncsOneEnd }
{}
