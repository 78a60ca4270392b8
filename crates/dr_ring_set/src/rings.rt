ghost use Rattle.std.specs.Prelude.{◌≡◌, ◌<◌, ◌^◌, map, length, All};
ghost use Rattle.dr_ring.specs.Seats.{IsOfSize};
ghost use Rattle.dr_ring_set.specs.Seated.{RingsView, id_of};

use dr_ring::{Name, Ring};
use std::marker::{Model, PhantomData};

/// The rings of one name, in the order of the vCPUs.
#[derive(Drop)]
pub struct Rings<N: Name> {
    pub(crate) rings: Vec<Ring>,
    size: u32,
    name: PhantomData<N>,
}

impl<N: Name> Model for Rings<N> {
    ghost use Rattle.std.specs.Prelude.{◌≡◌, ◌<◌, ◌^◌, map, length, All};
    ghost use Rattle.dr_ring.specs.Seats.{IsOfSize};
    ghost use Rattle.dr_ring_set.specs.Seated.{RingsView, id_of};

    ghost Value = { RingsView };

    ghost view = { λ r. record { vcpus = length r.rings.items; size = r.size } };

    ghost invariant = { λ r.
        (map id_of r.rings.items ≡ N.rings) × All (λ x. x.size ≡ r.size) r.rings.items
        × (length r.rings.items < 2 ^ 32) × All (λ id. IsOfSize r.size id) N.rings };
}

impl<N: Name> Rings<N> {
    pub(crate) fn of(rings: Vec<Ring>, size: u32) -> Rings<N>
        requires named { map id_of rings.items ≡ N.rings }
        requires sizes { All (λ x. x.size ≡ size) rings.items }
        requires few { length rings.items < 2 ^ 32 }
        requires sized { All (λ id. IsOfSize size id) N.rings }
        ensures { result ≡ record { vcpus = length rings.items; size = size } }
    {
        Rings {
            rings,
            size,
            name: PhantomData,
        }
    }

    /// The number of vCPUs, each of which has one ring.
    pub fn vcpus(&self) -> u32
        ensures vcpus { result ≡ self.now.vcpus }
        ensures named { result ≡ length N.rings }
    {
        self.rings.len() as u32
    }

    /// How many places each ring has.
    pub fn size(&self) -> u32
        ensures { result ≡ self.now.size }
    {
        self.size
    }

    /// The size is a fact of the name's rings.
    pub fn recall_sizes(&self)
        ensures { All (λ id. IsOfSize self.now.size id) N.rings }
    {
        let _recall_rings = &self.rings;
    }
}
