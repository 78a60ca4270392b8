//! New rings with their seats, one for each vCPU.
ghost use Rattle.std.specs.Prelude.{◌≡◌, ◌≤◌, map, length, All, IfOk};
ghost use Rattle.std.specs.Int.{IsPowerOfTwo};
ghost use Rattle.dr_ring.specs.Seats.{IsOfSize, new_kernel, new_user};

use crate::kernels::KernelSeats;
use crate::rings::Rings;
use crate::users::UserSeats;
use dr_ring::{KernelSeat, Name, Ring, UserSeat};
use dr_types::Memory;
use std::alloc::Global;
use std::marker::Model;

/// One new ring with its two seats for each vCPU. No call changes it, so nothing was pushed in it.
#[derive(Drop)]
pub struct RingSet {
    rings: Vec<Ring>,
    kernels: Vec<KernelSeat>,
    users: Vec<UserSeat>,
    size: u32,
}

impl Model for RingSet {
    ghost use Rattle.std.specs.Prelude.{◌<◌, ◌^◌, map, length};
    ghost use Rattle.dr_ring_set.specs.Seated.{SetView, IsNewSet, id_of};

    ghost Value = { SetView };

    ghost view = { λ s. record { rings = map id_of s.rings.items; size = s.size } };

    ghost invariant = { λ s.
        IsNewSet s.rings.items s.kernels.items s.users.items s.size
        × (length s.rings.items < 2 ^ 32) };
}

/// The parts of a set, under one name.
#[derive(Drop)]
pub struct RingParts<N: Name> {
    pub rings: Rings<N>,
    pub kernels: KernelSeats<N>,
    pub users: UserSeats<N>,
}

impl RingSet {
    /// A ring of `size` places for each of 1 to 32 vCPUs.
    pub fn new(alloc: Global, vcpus: u32, size: u32) -> Result<RingSet, Memory>
        requires some { 1 ≤ vcpus }
        requires few { vcpus ≤ 32 }
        requires power { IsPowerOfTwo size }
        requires least { 4 ≤ size }
        requires most { size ≤ 65536 }
        ensures rings { IfOk result (λ s. length s.rings ≡ vcpus) }
        ensures size { IfOk result (λ s. s.size ≡ size) }
    {
        let mut rings = Vec::new(alloc);
        let mut kernels = Vec::new(alloc);
        let mut users = Vec::new(alloc);
        for _ in 0..vcpus {
            let (ring, kernel, user) = Ring::new(alloc, size)?;
            ring.recall_size();
            rings.push(ring)?;
            kernels.push(kernel)?;
            users.push(user)?;
        }
        Ok(RingSet {
            rings,
            kernels,
            users,
            size,
        })
    }

    /// The number of vCPUs, each of which has one ring.
    pub fn vcpus(&self) -> u32
        ensures { result ≡ length self.now.rings }
    {
        self.rings.len() as u32
    }

    /// The size is a fact of the rings.
    pub fn recall_sizes(&self)
        ensures { All (λ id. IsOfSize self.now.size id) self.now.rings }
    {
        let _recall_size = self.size;
    }

    /// The rings and their new seats, under a name that fixes these rings.
    pub fn parts<N: Name>(self) -> RingParts<N>
        requires { N.rings ≡ self.rings }
        ensures vcpus { result.rings.vcpus ≡ length self.rings }
        ensures size { result.rings.size ≡ self.size }
        ensures kernels { result.kernels ≡ map new_kernel N.rings }
        ensures users { result.users ≡ map new_user N.rings }
    {
        let RingSet {
            rings,
            kernels,
            users,
            size,
        } = self;
        RingParts {
            rings: Rings::of(rings, size),
            kernels: KernelSeats::of(kernels),
            users: UserSeats::of(users),
        }
    }
}
