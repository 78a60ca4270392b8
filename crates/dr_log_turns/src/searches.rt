ghost use Rattle.std.specs.Prelude.{◌≡◌, ◌<◌, IfSome, nat_lt};
ghost use Rattle.dr_types.specs.Scripts.{vcpu_count};
ghost use Rattle.dr_history.specs.Entries.{opens, resets};
ghost use Rattle.dr_history.specs.Kinds.{is_asked};
ghost use Rattle.dr_history.specs.Lookback.{before, since};
ghost use Rattle.dr_history.specs.Vcpus.{paced};
ghost use Rattle.dr_turns.specs.Firsts.{first_unpaced, first_kicked, first_unreset};

use dr_log::Log;

/// A vCPU has executed enough since the first event, or has halted.
fn is_paced(log: &Log, v: u32) -> bool
    requires { v < vcpu_count log.now.guest }
    ensures { result ≡ paced log.now.guest v log.now.past log.now.past }
{
    u64::from(log.guest().settings.pace) <= log.ops(v) || log.halted(v)
}

/// The least vCPU that has executed too few ops since the first event, and hasn't halted.
#[tactic(auto, using(crate::proofs::Least::none_unpaced, crate::proofs::Least::one_more_paced))]
pub fn first_unpaced(log: &Log) -> Option<u32>
    ensures is { result ≡ first_unpaced log.now.guest log.now.past log.now.past }
    ensures within { IfSome result (λ v. v < vcpu_count log.now.guest) }
{
    for v in 0..log.vcpus() {
        let paced = is_paced(log, v);
        if !paced {
            return Some(v);
        }
    }
    None
}

/// A vCPU has executed enough since the last round was asked, or has halted.
fn is_paced_recently(log: &Log, v: u32) -> bool
    requires { v < vcpu_count log.now.guest }
    ensures { result ≡ paced log.now.guest v (since is_asked log.now.past) log.now.past }
{
    u64::from(log.guest().settings.pace) <= log.recent_ops(v) || log.halted(v)
}

/// The least vCPU that has executed too few ops since the last round was asked, and hasn't halted.
#[tactic(auto, using(crate::proofs::Least::none_unrecent, crate::proofs::Least::one_more_recent))]
pub fn first_unpaced_recently(log: &Log) -> Option<u32>
    ensures is { let recent = since is_asked log.now.past in
        result ≡ first_unpaced log.now.guest recent log.now.past }
    ensures within { IfSome result (λ v. v < vcpu_count log.now.guest) }
{
    for v in 0..log.vcpus() {
        let paced = is_paced_recently(log, v);
        if !paced {
            return Some(v);
        }
    }
    None
}

/// The least vCPU that is kicked.
#[tactic(auto, using(crate::proofs::Least::none_kicked, crate::proofs::Least::one_more_out))]
pub fn first_kicked(log: &Log) -> Option<u32>
    ensures is { result ≡ first_kicked log.now.guest log.now.past }
    ensures within { IfSome result (λ v. v < vcpu_count log.now.guest) }
{
    for v in 0..log.vcpus() {
        if log.kicked(v) {
            return Some(v);
        }
    }
    None
}

/// The vCPU had opened more entries when the last round was asked than it has reset.
fn is_unreset(log: &Log, v: u32) -> bool
    requires { v < vcpu_count log.now.guest }
    ensures { let past = log.now.past in
        result ≡ nat_lt (resets v past) (opens v (before is_asked past)) }
{
    log.resets(v) < log.asked_opens(v)
}

/// The least such vCPU.
#[tactic(auto, using(crate::proofs::Least::none_unreset, crate::proofs::Least::one_more_reset))]
pub fn first_unreset(log: &Log) -> Option<u32>
    ensures is { result ≡ first_unreset log.now.guest log.now.past }
    ensures within { IfSome result (λ v. v < vcpu_count log.now.guest) }
{
    for v in 0..log.vcpus() {
        if is_unreset(log, v) {
            return Some(v);
        }
    }
    None
}
