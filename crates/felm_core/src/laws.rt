//! Laws of positions, moves and runs. Each function's contract states a law; its body does nothing.
ghost use Rattle.felm_core.specs.EngineLaws.{EdgesTellTurns, BeginningsHold, StayingHolds, SendingHolds, SourcesSend, EventsHold, BeginningsKeepRoom, StayingKeepsRoom, SendingFindsRoom, SendingKeepsRoom, EventsKeepRoom};
ghost use Rattle.felm_core.specs.Instances.{AreWorked, ChainAllows};
ghost use Rattle.felm_core.specs.Laws.{BeginningsAreSound, MovesStaySound, RunsStaySound, BeginningsAreEmpty, ContentsStay, SendingMovesEdges, SendingMovesParts, SendingCounts, EventsMoveEdges, EventsMoveParts, EventsCount, EdgesHoldWhatIsDue, TurnsGiveTheMessages, NeverSticks, SettledRests, TurnsAreCounted, TurnNodesAreCounted, LegalJournalsAreBounded, RunsGrow, RunsHaveWhatTheyAreFed, SoundJournalsAreLegal, ScriptedRunsAreLegal, RunsKeepTypes, RunsComeToSoundPositions, WhatRestsIsComplete, WhatRestsAtTheLimitIsFull, StopsAreOverBudget, PlaceIsLeft, MovesGain, ProgressIsBounded};

/// Where every default is there, a run begins at a sound position.
pub fn beginnings_are_sound()
    ensures { BeginningsAreSound }
{}

/// Every move keeps a sound position sound.
pub fn moves_stay_sound()
    ensures { MovesStaySound }
{}

/// So does every run.
pub fn runs_stay_sound()
    ensures { RunsStaySound }
{}

/// A run begins with empty edges, waiting lists and outputs.
pub fn beginnings_are_empty()
    ensures { BeginningsAreEmpty }
{}

/// What lies where depends on the journal and the done counts alone.
pub fn contents_stay()
    ensures { ContentsStay }
{}

/// What a sent turn does to the edges.
pub fn sending_moves_edges()
    ensures { SendingMovesEdges }
{}

/// What it does to kept values, waiting lists and outputs.
pub fn sending_moves_parts()
    ensures { SendingMovesParts }
{}

/// One more turn is settled, and one message less is owed.
pub fn sending_counts()
    ensures { SendingCounts }
{}

/// What an event does to the edges.
pub fn events_move_edges()
    ensures { EventsMoveEdges }
{}

/// What it does to kept values, waiting lists and outputs.
pub fn events_move_parts()
    ensures { EventsMoveParts }
{}

/// An event settles no turn, and each node that is no source owes one message more.
pub fn events_count()
    ensures { EventsCount }
{}

/// An edge holds one message for each turn that its reader is behind.
pub fn edges_hold_what_is_due()
    ensures { EdgesHoldWhatIsDue }
{}

/// The step of a turn over what lies at its edges is the node's next message.
pub fn turns_give_the_messages()
    ensures { TurnsGiveTheMessages }
{}

/// With no turn out and no stop, all is settled or some node is ready.
pub fn never_sticks()
    ensures { NeverSticks }
{}

/// Where all is settled no node is ready, and each source has room.
pub fn settled_rests()
    ensures { SettledRests }
{}

/// No more turns are taken than there are.
pub fn turns_are_counted()
    ensures { TurnsAreCounted }
{}

/// The nodes that take turns are those that are no sources.
pub fn turn_nodes_are_counted()
    ensures { TurnNodesAreCounted }
{}

/// A legal journal has at most as many events as its script, doubled once for each async.
pub fn legal_journals_are_bounded()
    ensures { LegalJournalsAreBounded }
{}

/// A run only adds events to its journal.
pub fn runs_grow()
    ensures { RunsGrow }
{}

/// The input events of a run's journal are those that it was fed.
pub fn runs_have_what_they_are_fed()
    ensures { RunsHaveWhatTheyAreFed }
{}

/// A sound position whose input events are the first ones of the script has a legal journal.
pub fn sound_journals_are_legal()
    ensures { SoundJournalsAreLegal }
{}

/// A run that is fed by a script has a legal journal.
pub fn scripted_runs_are_legal()
    ensures { ScriptedRunsAreLegal }
{}

/// The events of a run have their nodes' types.
pub fn runs_keep_types()
    ensures { RunsKeepTypes }
{}

/// A run from the beginning comes to a sound position with events of their nodes' types, and with a legal journal where it is
/// fed by the script.
pub fn runs_come_to_sound_positions()
    ensures { RunsComeToSoundPositions }
{}

/// Where all is settled, nothing waits and the script is used, the journal is complete.
pub fn what_rests_is_complete()
    ensures { WhatRestsIsComplete }
{}

/// Where all is settled at the limit and something is still to enter, the journal is full.
pub fn what_rests_at_the_limit_is_full()
    ensures { WhatRestsAtTheLimitIsFull }
{}

/// A stop is at a call over budget.
pub fn stops_are_over_budget()
    ensures { StopsAreOverBudget }
{}

/// Below a limit that no legal journal exceeds, an event that can come in finds place.
pub fn place_is_left()
    ensures { PlaceIsLeft }
{}

/// An event and a sent turn take a run one step further, and no other move does.
pub fn moves_gain()
    ensures { MovesGain }
{}

/// No run goes further than all turns at as many events as the limit.
pub fn progress_is_bounded()
    ensures { ProgressIsBounded }
{}

/// Whether a node has a turn is told by its edges.
pub fn edges_tell_turns()
    ensures { EdgesTellTurns }
{}

/// Empty parts and the defaults are what the beginning holds.
pub fn beginnings_hold()
    ensures { BeginningsHold }
{}

/// What parts hold depends on the journal and the done counts alone.
pub fn staying_holds()
    ensures { StayingHolds }
{}

/// Parts that a sent turn changed hold what lies after it.
pub fn sending_holds()
    ensures { SendingHolds }
{}

/// The message of a source at an event is Change of the event's value, or NoChange of its own.
pub fn sources_send()
    ensures { SourcesSend }
{}

/// Parts that an event changed hold what lies after it.
pub fn events_hold()
    ensures { EventsHold }
{}

/// A run begins with nothing owed.
pub fn beginnings_keep_room()
    ensures { BeginningsKeepRoom }
{}

/// The room that is wanted depends on the journal and the done counts alone.
pub fn staying_keeps_room()
    ensures { StayingKeepsRoom }
{}

/// A message that is sent finds room wherever it is put.
pub fn sending_finds_room()
    ensures { SendingFindsRoom }
{}

/// After a sent turn the room is enough, if the message took one place in each list that it was put into.
pub fn sending_keeps_room()
    ensures { SendingKeepsRoom }
{}

/// After an event the room is enough, if it was enough for one message more of each node that takes turns.
pub fn events_keep_room()
    ensures { EventsKeepRoom }
{}

/// The positions of small runs, what lies there and what may be done there are as they were worked out by hand.
pub fn positions_worked_by_hand()
    ensures rows { AreWorked }
    ensures allowed { ChainAllows }
{}
