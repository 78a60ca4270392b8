use dr_io::Clock;
use dr_ring::Name;
use dr_ring_set::Rings;
use std::alloc::Global;

/// What a drive works with, beside the bench and the collector that it changes.
#[derive(Drop)]
pub struct Context<'a, N: Name, C: Clock> {
    pub alloc: Global,
    pub rings: &'a Rings<N>,
    pub clock: &'a C,
}
