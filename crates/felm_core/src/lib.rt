//! Positions of a run whose nodes take their turns at different events, the moves between them, and their laws.
#![tactic(auto)]

mod laws;

pub use laws::{
    beginnings_are_empty, beginnings_are_sound, beginnings_hold, beginnings_keep_room,
    contents_stay, edges_hold_what_is_due, edges_tell_turns, events_count, events_hold,
    events_keep_room, events_move_edges, events_move_parts, legal_journals_are_bounded, moves_gain,
    moves_stay_sound, never_sticks, place_is_left, positions_worked_by_hand, progress_is_bounded,
    runs_come_to_sound_positions, runs_grow, runs_have_what_they_are_fed, runs_keep_types,
    runs_stay_sound, scripted_runs_are_legal, sending_counts, sending_finds_room, sending_holds,
    sending_keeps_room, sending_moves_edges, sending_moves_parts, settled_rests,
    sound_journals_are_legal, sources_send, staying_holds, staying_keeps_room,
    stops_are_over_budget, turn_nodes_are_counted, turns_are_counted, turns_give_the_messages,
    what_rests_at_the_limit_is_full, what_rests_is_complete,
};
