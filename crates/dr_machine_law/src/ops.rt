ghost use Rattle.std.specs.Prelude.{◌≡◌, ◌≢◌, ℕ, ◌+◌, ◌<◌, ◌≤◌, ◌||◌, true, false, Some, OnOk};
ghost use Rattle.dr_types.specs.Scripts.{vcpu_count};
ghost use Rattle.dr_history.specs.Entries.{used};
ghost use Rattle.dr_history.specs.Execution.{ops};
ghost use Rattle.dr_history.specs.Memory.{page_bytes};
ghost use Rattle.dr_history.specs.Protection.{started, writable, cached, closing};
ghost use Rattle.dr_history.specs.Vcpus.{in_guest};
ghost use Rattle.dr_history_law.specs.Room.{unpushed, room};
ghost use Rattle.dr_machine_law.specs.Turns.{Executes, next_page, WritesLogged};

use dr_machine::Machine;
use dr_ring::Name;
use dr_ring_set::Rings;
use dr_turns::Turn;
use dr_types::Memory;

/// A vCPU executes its next op, or tells why not.
pub fn op<N: Name>(machine: &mut Machine<N>, rings: &Rings<N>, v: u32) -> Result<Turn, Memory>
    requires { v < vcpu_count N.guest }
    ensures started { started machine.new.past ≡ started machine.old.past }
    ensures counted { Executes N.guest v machine.old
        → OnOk result (ops v machine.new.past ≡ ops v machine.old.past + 1) }
    ensures others { (u : ℕ) → u ≢ v → ops u machine.new.past ≡ ops u machine.old.past }
    ensures inside { Executes N.guest v machine.old
        → OnOk result (in_guest v machine.new.past ≡ true) }
    ensures bytes { (page : ℕ) → next_page N.guest v machine.old.past ≢ Some page
        → page_bytes N.guest page machine.new.past ≡ page_bytes N.guest page machine.old.past }
    ensures cached { (page : ℕ) → WritesLogged N.guest v page machine.old
        → OnOk result (cached v page machine.new.past ≡ true) }
    ensures writable { (page : ℕ) → WritesLogged N.guest v page machine.old
        → cached v page machine.old.past ≡ false
        → OnOk result (writable page machine.new.past ≡ true) }
    ensures closing { (page : ℕ) → WritesLogged N.guest v page machine.old
        → OnOk result ((writable page machine.new.past || closing page machine.new.past) ≡ true) }
    ensures room { (u : ℕ)
        → used u machine.new.past + unpushed u machine.new.past ≤ room N.guest }
    ensures place { (u : ℕ) → used u machine.new.past + unpushed u machine.new.past
        + N.guest.settings.reserve ≤ N.guest.settings.ring }
{
    machine.recall_kept();
    let _recall_guest = machine.guest();
    let turn = machine.op(rings, v);
    machine.recall_kept();
    turn
}
