//! The threads of a run. Where one can't be made the caller does its work, so nothing is left out.
ghost use Rattle.std.specs.Prelude.{◌≡◌, ◌<◌};
ghost use Rattle.dr_types.specs.Scripts.{vcpu_count};

use dr_io::{Clock, Gate, Outlet};
use dr_kick::Bell;
use dr_reaper::reap_loop;
use dr_ring::Name;
use dr_shared::Shared;
use dr_switch::{rounds_live, switch_live};
use dr_vcpu::run_vcpu;
use std::alloc::Global;
use std::sync::Wait;
use std::thread::{Threads, scope, scope_env};

/// The migrator: the rounds, and then the switch-over, however the rounds ended.
fn migrate<N: Name, O: Outlet, C: Clock, G: Gate, R: Wait>(
    rt: &R,
    alloc: Global,
    shared: &Shared<N, O>,
    bell: &Bell,
    clock: &C,
    gate: &G,
) {
    rounds_live(rt, alloc, shared, bell, clock, gate);
    switch_live(rt, alloc, shared, bell, clock);
}

/// All threads of a run: the vCPUs, then the reaper, then the migrator, which the caller is. Where
/// one can't be made the caller does its work there and then. Only the migrator waits for others,
/// and it comes last, so nothing waits for work that hasn't begun. All are joined at the end of the
/// scope.
pub fn run_all<
    N: Name,
    O: Outlet + Send,
    C: Clock + Sync,
    G: Gate + Sync,
    R: Threads + Wait + Sync,
>(rt: &R, alloc: Global, shared: &Shared<N, O>, clock: &C, gate: &G) {
    let own = Bell::new();
    let bell = &own;
    scope(scope_env(), rt, |scope| {
        for v in 0..shared.vcpus() {
            if scope
                .spawn(
                    move ||
                        requires { v < vcpu_count N.guest }
                    { run_vcpu(rt, alloc, shared, v, bell, clock, gate) },
                )
                .is_err()
            {
                run_vcpu(rt, alloc, shared, v, bell, clock, gate);
            }
        }
        if scope
            .spawn(move || reap_loop(rt, alloc, shared, clock, gate))
            .is_err()
        {
            reap_loop(rt, alloc, shared, clock, gate);
        }
        migrate(rt, alloc, shared, bell, clock, gate);
    });
}
