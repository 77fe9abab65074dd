//! Laws of journals, each on a function that does nothing.

ghost use Rattle.ih_replay.specs.Laws.{LegalJournalsAreTaken, LegalJournalsDiffer, TakenLinesAreOfLegalHistories};

/// Each whole line of a legal history's journal is taken, also where the journal is cut off somewhere behind its
/// heading.
pub fn legal_journals_are_taken()
    ensures { LegalJournalsAreTaken }
{}

/// Two different legal histories over one instance, start, options and freeze day have different journals.
pub fn legal_journals_differ()
    ensures { LegalJournalsDiffer }
{}

/// Lines that are taken one after another are those of the history that they lead to, which is legal.
pub fn taken_lines_are_of_legal_histories()
    ensures { TakenLinesAreOfLegalHistories }
{}
