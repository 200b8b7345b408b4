//! Laws that tie the reading function to the grammar and its fronts. Each function's contract is a
//! law, and its body does nothing.
ghost use Rattle.felm_reading.specs.Laws.{ProgramSound, ProgramComplete, ProgramSize, OneProgram, TokenNames, ProgramPasses, WholeIsFront, FirstFault, OneFirstFault, FirstFaultMet, NoFrontGoesOn, BehindLongestFront};

/// What is read is a program by the grammar, with distinct names and within the limit of nesting.
pub fn what_is_read_is_a_program()
    ensures { ProgramSound }
{}

/// Of the tokens of a text, every such program is read.
pub fn every_program_is_read()
    ensures { ProgramComplete }
{}

/// A program's inputs and binders are no more than its tokens.
pub fn no_more_binders_than_tokens()
    ensures { ProgramSize }
{}

/// Tokens read as at most one program.
pub fn one_program()
    ensures { OneProgram }
{}

/// Of the tokens of a text, each of the kind of names is the name that its slice spells.
pub fn name_tokens_have_names()
    ensures { TokenNames }
{}

/// None of the tokens of a program is refused.
pub fn the_tokens_of_a_program_pass()
    ensures { ProgramPasses }
{}

/// A whole program is a front of one.
pub fn a_program_is_a_front()
    ensures { WholeIsFront }
{}

/// Where reading stops in the tokens of a text, the fault is the first one as they are judged from
/// the left.
pub fn faults_are_the_first()
    ensures { FirstFault }
{}

/// Tokens have at most one first fault.
pub fn one_first_fault()
    ensures { OneFirstFault }
{}

/// Where the tokens of a text have a first fault, reading stops there.
pub fn the_first_fault_is_met()
    ensures { FirstFaultMet }
{}

/// No front begins with the tokens up to one that is refused for the syntax.
pub fn no_front_goes_on()
    ensures { NoFrontGoesOn }
{}

/// A fault of the syntax is at the first token behind the longest front, or at the end of the text.
pub fn syntax_faults_are_behind_the_longest_front()
    ensures { BehindLongestFront }
{}
