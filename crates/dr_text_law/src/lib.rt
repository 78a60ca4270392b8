//! A history's text says that history and no other.
#![tactic(auto)]

ghost use Rattle.dr_text_law.specs.Texts.{WrittenIsRead, ReadIsWritten, OneText, OneJournal};

/// A history's text is read as that history.
pub fn written_is_read()
    ensures { WrittenIsRead }
{}

/// A text that is read is its history's text, and each event of it has a line of its own.
pub fn read_is_written()
    ensures { ReadIsWritten }
{}

/// Two histories never have the same text.
pub fn one_text()
    ensures { OneText }
{}

/// Two histories of a guest never have the same journal.
pub fn one_journal()
    ensures { OneJournal }
{}
