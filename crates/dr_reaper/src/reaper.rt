use dr_io::{Clock, Gate, Outlet};
use dr_ring::Name;
use dr_shared::{Shared, all_out, give_up, is_over, reap_all};
use std::alloc::Global;
use std::sync::Wait;

/// How long the reaper sleeps between two reaps, in microseconds.
const SLEEP_US: u64 = 1_000;

/// One reap, where the run wasn't given up. Answers whether there is to be another.
fn reap_again<N: Name, O: Outlet, G: Gate, R: Wait>(
    rt: &R,
    alloc: Global,
    shared: &Shared<N, O>,
    gate: &G,
    reaps: u64,
) -> bool {
    if is_over(rt, shared) {
        return false;
    }
    if reap_all(rt, alloc, shared, gate, reaps).is_err() {
        give_up(rt, shared);
        return false;
    }
    !all_out(rt, shared)
}

/// Reaps all rings again and again, and sleeps between two reaps. In its n-th reap, from 1 on, it
/// passes the gate with n after the harvest, while it has the collector's lock and not the
/// machine's. It ends where the run was given up, where the guest is stopped or every vCPU has
/// halted, and for want of memory, which gives the run up.
pub fn reap_loop<N: Name, O: Outlet, C: Clock, G: Gate, R: Wait>(
    rt: &R,
    alloc: Global,
    shared: &Shared<N, O>,
    clock: &C,
    gate: &G,
) {
    let mut reaps = 1u64;
    for _ in rt.forever() {
        if !reap_again(rt, alloc, shared, gate, reaps) {
            return;
        }
        clock.sleep_us(SLEEP_US);
        reaps = reaps.saturating_add(1);
    }
}
