ghost use Rattle.std.specs.Prelude.{◌≡◌, map, length};
ghost use Rattle.dr_types.specs.Scripts.{vcpu_count};
ghost use Rattle.dr_types.specs.Validity.{IsValid};
ghost use Rattle.dr_ring.specs.Seats.{new_user};
ghost use Rattle.dr_io.specs.Book.{empty_book, told_by};

use crate::calls::{Call, answers};
use crate::reaping::answers_beside;
use crate::twice::settles_three;
use dr_bench::Bench;
use dr_collector::Collector;
use dr_io::{Outlet, Port, PortBook};
use dr_machine::{Rig, new_rig};
use dr_ring::Name;
use dr_ring_set::{RingSet, Rings, UserSeats};
use dr_types::{Guest, Memory, NumberList};
use std::alloc::Global;

/// What a bench does: each call answers as it should; after the calls three batches are settled,
/// or not; the events end with these lines; and the Stream port has so many bytes, of which the
/// first are these.
#[derive(Clone, Copy)]
pub struct Row {
    pub calls: &'static [Call],
    pub settles: bool,
    pub lines: &'static str,
    pub put: usize,
    pub first: &'static [u8],
}

/// Each call answers as it should, beside a collector of the rig's user seats.
fn all_beside<N: Name, O: Outlet>(
    bench: &mut Bench<N, O>,
    collector: &mut Collector<N>,
    rings: &Rings<N>,
    alloc: Global,
    calls: &[Call],
) -> bool {
    let mut all = true;
    for call in calls {
        let right = answers_beside(bench, collector, rings, alloc, *call);
        all = all && right;
    }
    all
}

fn with_collector<N: Name, O: Outlet>(
    bench: &mut Bench<N, O>,
    users: UserSeats<N>,
    rings: &Rings<N>,
    alloc: Global,
    calls: &[Call],
) -> bool
    requires { users ≡ map new_user N.rings }
{
    match Collector::new(alloc, users) {
        Ok(collector) => {
            let mut collector = collector;
            all_beside(bench, &mut collector, rings, alloc, calls)
        }
        Err(_) => false,
    }
}

/// Each call, of which none harvests, answers as it should.
fn all_alone<N: Name, O: Outlet>(
    bench: &mut Bench<N, O>,
    rings: &Rings<N>,
    calls: &[Call],
) -> bool {
    let mut all = true;
    for call in calls {
        let right = answers(bench, rings, *call);
        all = all && right;
    }
    all
}

fn with_users<N: Name, O: Outlet>(
    bench: &mut Bench<N, O>,
    users: &mut UserSeats<N>,
    rings: &Rings<N>,
    alloc: Global,
    calls: &[Call],
) -> bool
    requires { users.old ≡ map new_user N.rings }
{
    let right = all_alone(bench, rings, calls);
    let settled = settles_three(bench, users, rings, alloc);
    right && settled
}

fn does<N: Name, O: Outlet>(
    bench: &mut Bench<N, O>,
    users: UserSeats<N>,
    rings: &Rings<N>,
    alloc: Global,
    row: Row,
) -> bool
    requires { users ≡ map new_user N.rings }
{
    if row.settles {
        let mut users = users;
        with_users(bench, &mut users, rings, alloc, row.calls)
    } else {
        with_collector(bench, users, rings, alloc, row.calls)
    }
}

/// The events end with these lines.
fn ends_with<N: Name, O: Outlet>(bench: &Bench<N, O>, alloc: Global, lines: &str) -> bool {
    match bench.history().text(alloc) {
        Ok(text) => text.as_str().ends_with(lines),
        Err(_) => false,
    }
}

/// The Stream port has so many bytes, of which the first are these.
fn has_put<N: Name>(bench: Bench<N, PortBook>, put: usize, first: &[u8]) -> bool {
    let (_machine, out) = bench.into_parts();
    let bytes = out.bytes(Port::Stream);
    bytes.len() == put && bytes.starts_with(first)
}

/// A new bench over a book that fails at these puts does as the row says.
pub fn does_so<N: Name>(
    alloc: Global,
    guest: Guest,
    set: RingSet,
    fails: NumberList,
    row: Row,
) -> Result<bool, Memory>
    requires guest { guest ≡ N.guest }
    requires valid { IsValid guest }
    requires set { N.rings ≡ set.rings }
    requires one_each { length set.rings ≡ vcpu_count guest }
    requires size { set.size ≡ guest.settings.ring }
    requires ports { N.ports ≡ told_by (empty_book fails) }
    requires faults { N.faults ≡ 0 }
{
    match new_rig::<N>(alloc, guest, set) {
        Ok(rig) => {
            let Rig {
                rings,
                machine,
                users,
            } = rig;
            let mut bench = Bench::new(machine, PortBook::new(alloc, fails));
            let right = does(&mut bench, users, &rings, alloc, row);
            let ended = ends_with(&bench, alloc, row.lines);
            Ok(has_put(bench, row.put, row.first) && right && ended)
        }
        Err(memory) => Err(memory),
    }
}
