//! Laws of scripts. Each function's contract states a law; its body does nothing.
ghost use Rattle.felm_script.specs.Laws.{LinesEndWithLineFeeds, LastLinesMayEndWithTheText, BlanksComeBeforeFields, FieldsEndWithBlanks, LastFieldsMayEndWithTheLine, SkippedLinesSayNothing, LinesAreNoEvents, LinesNameNoInput, LinesHaveWrongValues, EventsHaveTheirLines, ScriptsAreTheirLines, FaultsAreOfTheFirstRefusedLine, ReadEventsFit};

/// A line ends with a line feed, and the last one may end with the text.
pub fn lines_end_with_line_feeds()
    ensures feed { LinesEndWithLineFeeds }
    ensures last { LastLinesMayEndWithTheText }
{}

/// Fields stand between blanks.
pub fn fields_stand_between_blanks()
    ensures before { BlanksComeBeforeFields }
    ensures after { FieldsEndWithBlanks }
    ensures last { LastFieldsMayEndWithTheLine }
{}

/// A line says nothing, or is refused, exactly where the format says so, and for that cause.
pub fn lines_are_judged_in_order()
    ensures skipped { SkippedLinesSayNothing }
    ensures event { LinesAreNoEvents }
    ensures name { LinesNameNoInput }
    ensures value { LinesHaveWrongValues }
{}

/// A line that says an event is the name of its input, and then what gives the value.
pub fn events_have_their_lines()
    ensures { EventsHaveTheirLines }
{}

/// A script's events are those of its lines, where none is refused.
pub fn scripts_are_their_lines()
    ensures { ScriptsAreTheirLines }
{}

/// A script's fault is that of its first refused line.
pub fn faults_are_of_the_first_refused_line()
    ensures { FaultsAreOfTheFirstRefusedLine }
{}

/// Each event of a script names an input, and has a value of its type.
pub fn read_events_fit()
    ensures { ReadEventsFit }
{}
