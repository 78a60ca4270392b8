ghost use Rattle.std.specs.Prelude.{◌≡◌, ◌<◌, ◌≤◌, ℕ, true, false, Some, None, IfSome, nat_lt};
ghost use Rattle.std.specs.List.{list_any};
ghost use Rattle.dr_types.specs.Scripts.{vcpu_count};
ghost use Rattle.dr_history.specs.Rules.{deposits_entry};
ghost use Rattle.dr_turns_law.specs.Deposits.{first_twice, next_deposited, FirstDeposited};
ghost use Rattle.dr_turns_law.specs.Deposits.{NoneFrom, SomeFrom, HasGap};

use dr_log::Log;

/// The least number from one up to another that was deposited before.
#[tactic(auto, using(crate::proofs::Used::for_first_twice))]
pub fn first_twice(log: &Log, v: u32, from: u64, to: u64) -> Option<u64>
    requires vcpu { v < vcpu_count log.now.guest }
    requires order { from ≤ to }
    ensures { result ≡ first_twice v from log.now.past to }
{
    for k in from..to {
        if log.deposited(v, k) {
            return Some(k);
        }
    }
    None
}

/// The least number of a vCPU's entries that isn't deposited.
#[tactic(auto, using(crate::proofs::Used::for_first_missing))]
fn first_missing(log: &Log, v: u32) -> u64
    requires { v < vcpu_count log.now.guest }
    ensures before { FirstDeposited v result log.now.past }
    ensures here { list_any (deposits_entry v result) log.now.past ≡ false }
{
    log.recall_legal();
    let pushes = log.pushes(v);
    for k in log.resets(v)..pushes {
        if !log.deposited(v, k) {
            return k;
        }
    }
    pushes
}

/// Some entry of a vCPU from this number on is deposited.
#[tactic(auto, using(crate::proofs::Used::for_some_from))]
fn some_from(log: &Log, v: u32, n: u64) -> bool
    requires { v < vcpu_count log.now.guest }
    ensures some { result ≡ true → SomeFrom v n log.now.past }
    ensures none { result ≡ false → NoneFrom v n log.now.past }
{
    log.recall_legal();
    let pushes = log.pushes(v);
    if n < pushes {
        log.some_deposited(v, n, pushes)
    } else {
        false
    }
}

/// How many of a vCPU's entries are deposited, where these are its first; `None` where one isn't
/// and a later one is.
#[tactic(auto, using(crate::proofs::Used::for_deposited))]
pub fn deposited(log: &Log, v: u32) -> Option<u64>
    requires { v < vcpu_count log.now.guest }
    ensures some { IfSome result (λ n. (k : ℕ)
        → list_any (deposits_entry v k) log.now.past ≡ nat_lt k n) }
    ensures none { result ≡ None → HasGap v log.now.past }
{
    let missing = first_missing(log, v);
    if some_from(log, v, missing) {
        None
    } else {
        Some(missing)
    }
}

/// The vCPU's next entry to be reset is deposited.
#[tactic(auto, unfolding(dr_turns_law::specs::Deposits::next_deposited))]
pub fn is_next_deposited(log: &Log, v: u32) -> bool
    requires { v < vcpu_count log.now.guest }
    ensures { result ≡ next_deposited v log.now.past }
{
    let k = log.resets(v);
    log.deposited(v, k)
}
