ghost use Rattle.std.specs.Prelude.{◌≡◌, ◌<◌, false};
ghost use Rattle.dr_types.specs.Scripts.{vcpu_count};
ghost use Rattle.dr_history.specs.Protection.{started};

use dr_machine::{Advance, Machine, Turn};
use dr_machine_law::op;
use dr_memory::PageBytes;
use dr_ring::Name;
use dr_ring_set::Rings;
use dr_types::{Memory, Step};

/// So many turns of vCPU 0 execute plain ops.
pub fn all_plain<N: Name>(
    machine: &mut Machine<N>,
    rings: &Rings<N>,
    turns: u32,
) -> Result<bool, Memory>
    requires { 0 < vcpu_count N.guest }
    ensures { started machine.new.past ≡ started machine.old.past }
{
    let mut all = true;
    for _ in 0..turns {
        let turn = op(machine, rings, 0)?;
        all = all && turn == Turn::Done(Step::Plain);
    }
    Ok(all)
}

/// So many turns of vCPU 0 execute plain ops, and logging starts at 7.
pub fn starts<N: Name>(
    machine: &mut Machine<N>,
    rings: &Rings<N>,
    early: u32,
) -> Result<bool, Memory>
    requires vcpu { 0 < vcpu_count N.guest }
    requires fresh { started machine.old.past ≡ false }
{
    let plain = all_plain(machine, rings, early)?;
    let mut into = PageBytes::new();
    let begun = machine.advance(7, &mut into)? == Advance::Started;
    Ok(plain && begun)
}
