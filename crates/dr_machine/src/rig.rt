ghost use Rattle.std.specs.Prelude.{◌≡◌, [], false, map, length, IfOk};
ghost use Rattle.dr_types.specs.Scripts.{vcpu_count};
ghost use Rattle.dr_types.specs.Validity.{IsValid};
ghost use Rattle.dr_ring.specs.Seats.{new_kernel, new_user};

use crate::machine::Machine;
use dr_ring::Name;
use dr_ring_set::{RingParts, RingSet, Rings, UserSeats};
use dr_types::{Guest, Memory};
use std::alloc::Global;

/// A machine, the rings that its kernel seats push into, and the user seats that harvest them.
#[derive(Drop)]
pub struct Rig<N: Name> {
    pub rings: Rings<N>,
    pub machine: Machine<N>,
    pub users: UserSeats<N>,
}

/// New rings for a guest: one for each vCPU, of the guest's ring size.
pub fn rings_for(alloc: Global, guest: &Guest) -> Result<RingSet, Memory>
    requires { IsValid guest.now }
    ensures one_each { IfOk result (λ set. length set.rings ≡ vcpu_count guest.now) }
    ensures size { IfOk result (λ set. set.size ≡ guest.now.settings.ring) }
{
    let vcpus = guest.scripts.len() as u32;
    RingSet::new(alloc, vcpus, guest.settings.ring)
}

/// A machine of which nothing has happened, over new rings. `Err` for want of memory alone.
pub fn new_rig<N: Name>(alloc: Global, guest: Guest, set: RingSet) -> Result<Rig<N>, Memory>
    requires guest { guest ≡ N.guest }
    requires valid { IsValid guest }
    requires set { N.rings ≡ set.rings }
    requires one_each { length set.rings ≡ vcpu_count guest }
    requires size { set.size ≡ guest.settings.ring }
    ensures past { IfOk result (λ rig. rig.machine.past ≡ []) }
    ensures seats { IfOk result (λ rig. rig.machine.seats ≡ map new_kernel N.rings) }
    ensures over { IfOk result (λ rig. rig.machine.over ≡ false) }
    ensures users { IfOk result (λ rig. rig.users ≡ map new_user N.rings) }
    ensures vcpus { IfOk result (λ rig. rig.rings.vcpus ≡ vcpu_count N.guest) }
    ensures size { IfOk result (λ rig. rig.rings.size ≡ N.guest.settings.ring) }
{
    set.recall_sizes();
    let RingParts {
        rings,
        kernels,
        users,
    } = set.parts();
    let machine = Machine::new(alloc, &guest, kernels)?;
    Ok(Rig {
        rings,
        machine,
        users,
    })
}
