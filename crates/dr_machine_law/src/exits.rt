ghost use Rattle.std.specs.Prelude.{◌≡◌, ℕ, ◌<◌, length, false, OnOk};
ghost use Rattle.dr_types.specs.Scripts.{vcpu_count};
ghost use Rattle.dr_history.specs.Entries.{opens};
ghost use Rattle.dr_history.specs.Execution.{ops};
ghost use Rattle.dr_history.specs.Memory.{page_bytes};
ghost use Rattle.dr_history.specs.Protection.{started};
ghost use Rattle.dr_history.specs.Vcpus.{in_guest, kicked};
ghost use Rattle.dr_history_law.specs.Room.{unpushed};
ghost use Rattle.dr_ring_set.specs.Seated.{HasAt};

use dr_machine::Machine;
use dr_ring::Name;
use dr_ring_set::Rings;
use dr_types::{Memory, Why};

/// A vCPU leaves the guest, if it is inside, and tells why.
pub fn exit<N: Name>(
    machine: &mut Machine<N>,
    rings: &Rings<N>,
    v: u32,
) -> Result<Option<Why>, Memory>
    requires { v < vcpu_count N.guest }
    ensures outside { in_guest v machine.old.past ≡ false → machine.new ≡ machine.old }
    ensures leaves { OnOk result (in_guest v machine.new.past ≡ false) }
    ensures unkicked { OnOk result (kicked v machine.new.past ≡ false) }
    ensures pushed { OnOk result (unpushed v machine.new.past ≡ 0) }
    ensures seat { OnOk result
        (HasAt machine.new.seats v (λ s. length s.pushed ≡ opens v machine.new.past)) }
    ensures ops { (u : ℕ) → ops u machine.new.past ≡ ops u machine.old.past }
    ensures started { started machine.new.past ≡ started machine.old.past }
    ensures bytes { (page : ℕ)
        → page_bytes N.guest page machine.new.past ≡ page_bytes N.guest page machine.old.past }
{
    let why = machine.exit(rings, v);
    machine.recall_kept();
    why
}
