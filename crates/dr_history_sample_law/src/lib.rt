//! A few small histories, judged and written out by computing with the definitions alone.
#![tactic(auto)]

ghost use Rattle.std.specs.Prelude.{◌≡◌, Some};
ghost use Rattle.dr_history.specs.Legality.{IsLegal, first_broken};
ghost use Rattle.dr_history_sample_law.specs.Sample.{small_guest, switched, reset_early, unflushed};
ghost use Rattle.dr_history_sample_law.specs.Sample.{owing, held_guest, held};
ghost use Rattle.dr_history_sample_law.specs.Smallest.{halting_guest, halting_run, GuestSays};
ghost use Rattle.dr_history_sample_law.specs.Smallest.{RunSays, ReportSays, StreamIsLong};
ghost use Rattle.dr_history_sample_law.specs.Smallest.{HeldReportSays};

/// The smallest run is legal.
pub fn halting_is_legal()
    ensures { IsLegal halting_guest (halting_run 0) }
{}

/// The guest's text, the run's text, its report, and the length of its stream are the formats'.
pub fn halting_is_written()
    ensures guest { GuestSays }
    ensures run { RunSays }
    ensures report { ReportSays }
    ensures stream { StreamIsLong }
{}

/// A history that ends with the switch-over is legal: a page that was written by a stale permission
/// is dirty again after the flush, and is sent once more.
pub fn switched_is_legal()
    ensures { IsLegal small_guest switched }
{}

/// Rule 16 refuses a reset before the deposit, rule 20 an answer without its flush, and rule 26 an
/// end where a write is owed.
pub fn faults_are_refused()
    ensures early { first_broken small_guest reset_early ≡ Some (8, 16) }
    ensures unflushed { first_broken small_guest unflushed ≡ Some (15, 20) }
    ensures owing { first_broken small_guest owing ≡ Some (3, 26) }
{}

/// A history with a quota and its throttles is legal.
pub fn held_is_legal()
    ensures { IsLegal held_guest held }
{}

/// The report of that history shows its rates and throttles.
pub fn held_is_reported()
    ensures { HeldReportSays }
{}
