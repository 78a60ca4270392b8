//! A journal says its guest and its history, and no others.
#![tactic(auto)]

ghost use Rattle.dr_journal_law.specs.Journals.{OneJournal};

/// Two valid guests with their histories never have the same journal.
pub fn one_journal()
    ensures { OneJournal }
{}
