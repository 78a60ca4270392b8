ghost use Rattle.std.specs.Prelude.{◌≡◌, ℕ, true, false, Ok, IfOk};
ghost use Rattle.dr_history.specs.Dirty.{dirty};
ghost use Rattle.dr_history.specs.Memory.{page_bytes};
ghost use Rattle.dr_history.specs.Protection.{started, writable};
ghost use Rattle.dr_machine_law.specs.Beginning.{BeginsOrWaits};

use dr_machine::Machine;
use dr_memory::PageBytes;
use dr_ring::Name;
use dr_turns::Advance;
use dr_types::Memory;

/// Logging begins where each vCPU is paced; else the least that isn't is named.
pub fn start<N: Name>(
    machine: &mut Machine<N>,
    now: u64,
    into: &mut PageBytes,
) -> Result<Advance, Memory>
    requires { started machine.old.past ≡ false }
    ensures answer { IfOk result (λ due. BeginsOrWaits N.guest machine.old.past due) }
    ensures begun { result ≡ Ok Advance.Started → started machine.new.past ≡ true }
    ensures dirty { result ≡ Ok Advance.Started → (page : ℕ) → dirty page machine.new.past ≡ true }
    ensures protected { result ≡ Ok Advance.Started
        → (page : ℕ) → writable page machine.new.past ≡ false }
    ensures waits { (v done : ℕ) → result ≡ Ok (Advance.NotPaced v done)
        → machine.new.past ≡ machine.old.past }
    ensures bytes { (page : ℕ)
        → page_bytes N.guest page machine.new.past ≡ page_bytes N.guest page machine.old.past }
{
    machine.recall_kept();
    machine.advance(now, into)
}
