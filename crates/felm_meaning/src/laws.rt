//! Laws of the meaning and of journals. Each function's contract states a law; its body does nothing.
ghost use Rattle.felm_meaning.specs.Instances.{AreRuns, runs};
ghost use Rattle.felm_meaning.specs.Laws.{CallsAreByReduction, MeaningIsTheRecursion, OnlyTheMeaningIs, PrefixesAreEnough, NoneFollowsNone, ValuesHaveTheirTypes, TurnsFit, EdgesHoldTheMessages, CausesComeBefore, EventsFollowChanges, ScriptsFit, LegalJournalsFit, NextIsTheLeast, PlainJournalGrows, OnlyThePlainJournalDoes, PlainJournalIsLegal, WhatEndsIsComplete, WithoutAsyncsTheScriptIs};

/// The call that the meaning computes is the one by reduction.
pub fn calls_are_by_reduction()
    ensures { CallsAreByReduction }
{}

/// The meaning meets the recursion on position and node.
pub fn meaning_is_the_recursion()
    ensures { MeaningIsTheRecursion }
{}

/// Nothing else meets it.
pub fn only_the_meaning_is()
    ensures { OnlyTheMeaningIs }
{}

/// The meaning at a position reads no later event.
pub fn prefixes_are_enough()
    ensures { PrefixesAreEnough }
{}

/// Behind a message that is none, a node has no other one.
pub fn none_follows_none()
    ensures { NoneFollowsNone }
{}

/// Each value of the meaning has its node's type.
pub fn values_have_their_types()
    ensures { ValuesHaveTheirTypes }
{}

/// A turn of the meaning may be made and computed.
pub fn turns_fit()
    ensures { TurnsFit }
{}

/// An edge has one message a position.
pub fn edges_hold_the_messages()
    ensures { EdgesHoldTheMessages }
{}

/// Each event of an async in a legal journal has its cause at an earlier position.
pub fn causes_come_before()
    ensures { CausesComeBefore }
{}

/// No async has more events than its inner signal had changes.
pub fn events_follow_changes()
    ensures { EventsFollowChanges }
{}

/// The events of a script that fits have their nodes' types.
pub fn scripts_fit()
    ensures { ScriptsFit }
{}

/// So have the events of a legal journal.
pub fn legal_journals_fit()
    ensures { LegalJournalsFit }
{}

/// The next event is that of the least async that waits, else the script's next.
pub fn next_is_the_least()
    ensures { NextIsTheLeast }
{}

/// The plain journal grows while it can, and no longer.
pub fn plain_journal_grows()
    ensures { PlainJournalGrows }
{}

/// No other journal does.
pub fn only_the_plain_journal_does()
    ensures { OnlyThePlainJournalDoes }
{}

/// The plain journal is legal.
pub fn plain_journal_is_legal()
    ensures { PlainJournalIsLegal }
{}

/// A legal journal with every message and no next event is complete.
pub fn what_ends_is_complete()
    ensures { WhatEndsIsComplete }
{}

/// Without asyncs the one complete journal is the script.
pub fn without_asyncs_the_script_is()
    ensures { WithoutAsyncsTheScriptIs }
{}

/// The meaning and the plain journals of small plans are those that were worked out by hand.
pub fn runs_worked_by_hand()
    ensures { AreRuns runs }
{}
