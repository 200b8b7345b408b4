//! Laws of what texts come to: functions whose body does nothing, each for the sake of its contract.
ghost use Rattle.felm_plans.specs.Laws.{TextsComeToOnePlan, TextsNameTheirJournals, TextsAreProgramsOrFaulty, FaultyTextsAreNoPrograms, FaultyProgramsAreUntyped};

/// Two texts come to at most one plan or fault.
pub fn texts_come_to_one_plan()
    ensures { TextsComeToOnePlan }
{}

/// The bytes of a result text of a plan of two texts name its journal, and so do those of a stopped
/// text: no other legal journal of the plan has them.
pub fn texts_name_their_journals()
    ensures { TextsNameTheirJournals }
{}

/// Each text is a program or has a fault of its text.
pub fn texts_are_programs_or_faulty()
    ensures { TextsAreProgramsOrFaulty }
{}

/// A text with a fault is no program.
pub fn faulty_texts_are_no_programs()
    ensures { FaultyTextsAreNoPrograms }
{}

/// A program with a fault of types isn't typed.
pub fn faulty_programs_are_untyped()
    ensures { FaultyProgramsAreUntyped }
{}
