ghost use Rattle.std.specs.Prelude.{◌≡◌, ◌<◌, List};
ghost use Rattle.std.specs.List.{list_any, list_all};
ghost use Rattle.dr_types.specs.Pages.{page_count};
ghost use Rattle.dr_history.specs.declared.event.Event.{Event};
ghost use Rattle.dr_history.specs.Lookback.{since, before, below};
ghost use Rattle.dr_history.specs.Kinds.{is_asked};
ghost use Rattle.dr_history.specs.Protection.{closing};
ghost use Rattle.dr_history.specs.Rounds.{is_reset_in};
ghost use Rattle.dr_history.specs.Vcpus.{all_paced, some_kicked};
ghost use Rattle.dr_history.specs.Rules.{flush_has_cause, starts_paced};
ghost use Rattle.dr_state.specs.Whole.{IsStateOf};
ghost use Rattle.dr_log.specs.Tests.{row_paced, row_paced_recently, row_kicked, row_covered};

use dr_history::Event;
use dr_state::{State, Vcpu};
use dr_types::Guest;

fn rows_paced(rows: &[Vcpu], pace: u32) -> bool
    ensures { result ≡ list_all (row_paced pace) rows.now }
{
    let mut all = true;
    for row in rows {
        all = all && (u64::from(pace) <= row.ops || row.halted);
    }
    all
}

/// Each vCPU has executed enough, or has halted.
pub fn all_paced(guest: &Guest, state: &State) -> bool
    ensures { (past : List Event) → IsStateOf guest.now past state.now
        → result ≡ all_paced guest.now past past }
{
    rows_paced(state.vcpus.as_slice(), guest.settings.pace)
}

fn rows_paced_recently(rows: &[Vcpu], pace: u32) -> bool
    ensures { result ≡ list_all (row_paced_recently pace) rows.now }
{
    let mut all = true;
    for row in rows {
        all = all && (u64::from(pace) <= row.recent || row.halted);
    }
    all
}

/// Each vCPU has executed enough since the last Asked, or has halted.
pub fn all_paced_recently(guest: &Guest, state: &State) -> bool
    ensures { (past : List Event) → IsStateOf guest.now past state.now
        → result ≡ all_paced guest.now (since is_asked past) past }
{
    rows_paced_recently(state.vcpus.as_slice(), guest.settings.pace)
}

fn rows_kicked(rows: &[Vcpu]) -> bool
    ensures { result ≡ list_any row_kicked rows.now }
{
    let mut found = false;
    for row in rows {
        found = found || row.kicked;
    }
    found
}

/// Some vCPU is kicked.
pub fn some_kicked(guest: &Guest, state: &State) -> bool
    ensures { (past : List Event) → IsStateOf guest.now past state.now
        → result ≡ some_kicked guest.now past }
{
    rows_kicked(state.vcpus.as_slice())
}

fn rows_covered(rows: &[Vcpu]) -> bool
    ensures { result ≡ list_all row_covered rows.now }
{
    let mut all = true;
    for row in rows {
        all = all && row.asked_opens <= row.resets;
    }
    all
}

/// Each entry that was opened before the last Asked is reset.
pub fn all_covered(guest: &Guest, state: &State) -> bool
    ensures { (past : List Event) → IsStateOf guest.now past state.now
        → result ≡ list_all (is_reset_in past) (before is_asked past) }
{
    rows_covered(state.vcpus.as_slice())
}

/// Some page is closing.
pub fn some_closing(guest: &Guest, state: &State) -> bool
    ensures { (past : List Event) → IsStateOf guest.now past state.now
        → result ≡ list_any (λ page. closing page past) (below (page_count guest.now)) }
{
    state.protection.closing.any()
}
