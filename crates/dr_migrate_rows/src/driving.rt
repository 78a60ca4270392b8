use crate::reaping::are_all_deposited;
use dr_bench::Bench;
use dr_collector::Collector;
use dr_io::{FixedClock, Outlet};
use dr_migrate::drive;
use dr_ring::Name;
use dr_ring_set::Rings;
use dr_turns::RunEnd;
use std::alloc::Global;

/// A drive takes the bench, of which anything has happened, to this end.
pub fn drives<N: Name, O: Outlet>(
    bench: &mut Bench<N, O>,
    collector: &mut Collector<N>,
    rings: &Rings<N>,
    alloc: Global,
    end: RunEnd,
) -> bool {
    if bench.failed() {
        return false;
    }
    if bench.over() {
        return false;
    }
    if !are_all_deposited(bench, collector, rings) {
        return false;
    }
    drive(alloc, bench, collector, rings, &FixedClock { now: 7 }) == Ok(end)
}

/// All events have this text.
pub fn stands<N: Name, O: Outlet>(bench: &Bench<N, O>, alloc: Global, text: &str) -> bool {
    match bench.history().text(alloc) {
        Ok(all) => all.as_str() == text,
        Err(_) => false,
    }
}
