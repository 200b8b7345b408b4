//! Laws of texts. Each function's contract states a law; its body does nothing.
ghost use Rattle.felm_printer.specs.Laws.{ResultTextsNameTheirJournals, StoppedTextsNameTheirJournals};

/// The bytes of a result text name its journal: where the inputs' names are words and no two are
/// equal, no other legal journal of the same graph, budget and script has them.
pub fn result_texts_name_their_journals()
    ensures { ResultTextsNameTheirJournals }
{}

/// So do the bytes of a stopped text.
pub fn stopped_texts_name_their_journals()
    ensures { StoppedTextsNameTheirJournals }
{}
