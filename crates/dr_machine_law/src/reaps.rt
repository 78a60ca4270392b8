ghost use Rattle.std.specs.Prelude.{◌≡◌, ◌≢◌, ℕ, ◌+◌, ◌<◌, ◌≤◌, true, false, length, Ok, IfOk};
ghost use Rattle.std.specs.Prelude.{IfSome, OnOk};
ghost use Rattle.std.specs.List.{list_any};
ghost use Rattle.dr_types.specs.Scripts.{vcpu_count};
ghost use Rattle.dr_history.specs.Dirty.{dirty};
ghost use Rattle.dr_history.specs.Entries.{page_of_entry, pushes, resets};
ghost use Rattle.dr_history.specs.Protection.{cached, closing};
ghost use Rattle.dr_history.specs.Rules.{deposits_entry};
ghost use Rattle.dr_turns_law.specs.Deposits.{next_deposited};
ghost use Rattle.dr_ring_set.specs.Seated.{HasAt};
ghost use Rattle.dr_turns.specs.Due.{some_closing};

use dr_machine::{DepositFault, Machine};
use dr_ring::Name;
use dr_ring_set::{Batch, Rings};
use dr_types::Memory;

/// Deposits a batch: its entries are pushed, deposited, and known to be harvested.
pub fn deposit<N: Name>(
    machine: &mut Machine<N>,
    rings: &Rings<N>,
    batch: Batch<N>,
) -> Result<(), DepositFault<N>>
    requires { 0 < length batch.entries }
    ensures deposited { OnOk result ((k : ℕ) → batch.first ≤ k
        → k < batch.first + length batch.entries
        → list_any (deposits_entry batch.vcpu k) machine.new.past ≡ true) }
    ensures pushed { let to = batch.first + length batch.entries in
        OnOk result (to ≤ pushes batch.vcpu machine.new.past) }
    ensures known { let to = batch.first + length batch.entries in
        OnOk result (HasAt machine.new.seats batch.vcpu (λ s. to ≤ s.known)) }
{
    let answer = machine.deposit(rings, batch);
    machine.recall_kept();
    answer
}

/// Resets a vCPU's next entry, if that is deposited, and tells how many entries it reset.
pub fn reset_turn<N: Name>(
    machine: &mut Machine<N>,
    rings: &Rings<N>,
    v: u32,
) -> Result<u32, Memory>
    requires { v < vcpu_count N.guest }
    ensures some { next_deposited v machine.old.past ≡ true → IfOk result (λ n. 1 ≤ n) }
    ensures counted { IfOk result
        (λ n. resets v machine.new.past ≡ resets v machine.old.past + n) }
    ensures others { (u : ℕ) → u ≢ v
        → resets u machine.new.past ≡ resets u machine.old.past }
    ensures seat { HasAt machine.new.seats v (λ s. s.reset ≡ resets v machine.new.past) }
    ensures closing { let page = page_of_entry v (resets v machine.old.past) machine.old.past in
        next_deposited v machine.old.past ≡ true
        → OnOk result (IfSome page (λ p. closing p machine.new.past ≡ true)) }
{
    let count = machine.reset_turn(rings, v);
    machine.recall_kept();
    count
}

/// Drops all permissions, if a page was reset, and tells whether there was one.
pub fn flush<N: Name>(machine: &mut Machine<N>) -> Result<bool, Memory>
    ensures closed { OnOk result (some_closing N.guest machine.new.past ≡ false) }
    ensures uncached { result ≡ Ok true
        → (v page : ℕ) → cached v page machine.new.past ≡ false }
    ensures dirty { result ≡ Ok true → (page : ℕ) → closing page machine.old.past ≡ true
        → dirty page machine.new.past ≡ true }
{
    machine.flush()
}
