use dr_bench::{Bench, BenchFault};
use dr_io::Outlet;
use dr_ring::Name;
use dr_ring_set::Rings;
use dr_turns::{Advance, RunEnd, Turn};
use dr_types::Why;

/// A call of a bench, with its vCPU, and what it answers.
#[derive(Clone, Copy, Debug)]
pub enum Call {
    Op(u32, Turn),
    Exit(u32, Option<Why>),
    /// An advance, at 7.
    Advance(Advance),
    /// An advance whose put fails: the run is over.
    Sinks,
    /// A harvest of a vCPU and the deposit of its batch, which has so many entries.
    Deposit(u32, u32),
    /// How many of a vCPU's entries are deposited.
    Deposited(u32, Option<u64>),
    /// The reset of a vCPU's next entry: how many are reset.
    Reset(u32, u32),
    Flush(bool),
    ReapOne(u32),
    ReapAll,
    /// A drive, where the clock stands at 7.
    Drive(RunEnd),
    /// All events have this text.
    Stands(&'static str),
    /// A put failed, and the run was given up; or neither.
    Failed(bool),
}

/// The step answers so.
fn advances<N: Name, O: Outlet>(bench: &mut Bench<N, O>, answer: Advance) -> bool {
    if bench.failed() {
        return false;
    }
    match bench.advance(7) {
        Ok(step) => step == answer,
        Err(_) => false,
    }
}

/// The put of the step fails.
fn sinks<N: Name, O: Outlet>(bench: &mut Bench<N, O>) -> bool {
    if bench.failed() {
        return false;
    }
    match bench.advance(7) {
        Err(BenchFault::Sink) => true,
        _ => false,
    }
}

/// A call on a vCPU of the guest answers as it should.
fn answers_for<N: Name, O: Outlet>(bench: &mut Bench<N, O>, rings: &Rings<N>, call: Call) -> bool {
    let vcpus = rings.vcpus();
    bench.recall_kept();
    match call {
        Call::Op(v, turn) if v < vcpus => bench.op(rings, v) == Ok(turn),
        Call::Exit(v, why) if v < vcpus => bench.exit(rings, v) == Ok(why),
        Call::Reset(v, count) if v < vcpus => bench.reset_turn(rings, v) == Ok(count),
        Call::Deposited(v, count) if v < vcpus => bench.deposited(v) == count,
        _ => false,
    }
}

/// The call, which harvests nothing, answers as it should.
pub fn answers<N: Name, O: Outlet>(bench: &mut Bench<N, O>, rings: &Rings<N>, call: Call) -> bool {
    match call {
        Call::Advance(answer) => advances(bench, answer),
        Call::Sinks => sinks(bench),
        Call::Flush(some) => bench.flush() == Ok(some),
        Call::Failed(some) => bench.failed() == some && bench.over() == some,
        _ => answers_for(bench, rings, call),
    }
}
