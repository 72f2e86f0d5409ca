//! What the texts of journals have in common, each law the contract of a function.

ghost use Rattle.hq_timeline.specs.TextFaults.{OneJournal, FaultlessWhereJournal, OneFirstFault};
ghost use Rattle.hq_timeline.specs.Printed.{ReadBack};

/// A text is one journal's.
pub fn one_journal()
    ensures { OneJournal }
{}

/// A journal's text has no fault.
pub fn faultless_where_journal()
    ensures { FaultlessWhereJournal }
{}

/// A text has one first fault.
pub fn one_first_fault()
    ensures { OneFirstFault }
{}

/// What a journal prints is its text, and so is read as the same journal.
pub fn read_back()
    ensures { ReadBack }
{}
