//! Laws of engines, in the words of their calls' contracts. Each function's contract states a law; its
//! body does nothing.
ghost use Rattle.felm_engine.specs.Laws.{CallsAreMoves, ReopeningAllIsARun, EnginesFollowTheirMoves, EnginesNeverStick, SettledEnginesHaveRoom, JournalsHaveCauses};

/// Each call of an engine is a move or changes nothing.
pub fn calls_are_moves()
    ensures { CallsAreMoves }
{}

/// To take every turn back is to take back that of each node.
pub fn reopening_all_is_a_run()
    ensures { ReopeningAllIsARun }
{}

/// An engine that was taken through calls stands for the position that their moves give, and that
/// position is sound.
pub fn engines_follow_their_moves()
    ensures { EnginesFollowTheirMoves }
{}

/// Where no turn is out and nothing has stopped, `claim_next` finds no node ready exactly where all is
/// settled.
pub fn engines_never_stick()
    ensures { EnginesNeverStick }
{}

/// Where all is settled, no event lacks room.
pub fn settled_engines_have_room()
    ensures { SettledEnginesHaveRoom }
{}

/// Each event of an async comes after its cause.
pub fn journals_have_causes()
    ensures { JournalsHaveCauses }
{}
