ghost use Rattle.std.specs.Prelude.{◌≡◌};
ghost use Rattle.std.specs.List.{list_all};
ghost use Rattle.dr_types.specs.Scripts.{vcpu_count};
ghost use Rattle.dr_history.specs.Lookback.{below};
ghost use Rattle.dr_history.specs.Vcpus.{halted};
ghost use Rattle.dr_turns.specs.Due.{is_spent, run_end};
ghost use Rattle.dr_turns.specs.Turns.{all_out};

use dr_log::Log;
use dr_turns::RunEnd;

/// Every vCPU has halted.
#[tactic(auto, using(crate::proofs::Reading::all_more))]
fn all_halted(log: &Log) -> bool
    ensures { result ≡ list_all (λ v. halted v log.now.past) (below (vcpu_count log.now.guest)) }
{
    let mut all = true;
    for v in 0..log.vcpus() {
        let halted = log.halted(v);
        all = all && halted;
    }
    all
}

/// The guest is stopped, or every vCPU has halted.
pub fn all_out(log: &Log) -> bool
    ensures { result ≡ all_out log.now.guest log.now.past }
{
    let halted = all_halted(log);
    log.stopped() || halted
}

/// All rounds were asked, answered and copied, and the last left too many pages.
#[tactic(auto, unfolding(dr_turns::specs::Due::is_spent))]
fn is_spent(log: &Log) -> bool
    ensures { result ≡ is_spent log.now.guest log.now.past }
{
    let answered = log.unanswered().is_none();
    let copied = log.page_to_copy().is_none();
    let runs = !log.switched() && !log.stopped();
    let many = !log.few_answered();
    let asked = u64::from(log.guest().settings.rounds) <= log.asks();
    log.started() && answered && copied && runs && many && asked
}

/// Where the run stands.
pub fn run_end(log: &Log) -> RunEnd
    ensures { result ≡ run_end log.now.guest log.now.past }
{
    let spent = is_spent(log);
    if log.switched() {
        RunEnd::Switched
    } else if spent {
        RunEnd::Budget
    } else {
        RunEnd::Open
    }
}
