//! What every legal history promises, as one statement.
#![tactic(auto)]

ghost use Rattle.dr_headline_law.specs.Headline.{LegalKeepsPromises, SwitchedKeepsHeadline};

/// A legal history keeps the promises, wherever it ends.
pub fn promises_hold()
    ensures { LegalKeepsPromises }
{}

/// A legal history of a valid guest that has switched over keeps the headline.
pub fn headline_holds()
    ensures { SwitchedKeepsHeadline }
{}
