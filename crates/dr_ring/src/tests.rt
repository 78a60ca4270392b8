ghost use Rattle.std.specs.Prelude.{◌≡◌, ◌≤◌, [], length, IfOk};
ghost use mathlib.Core.List.{IsPrefix};
ghost use Rattle.dr_ring.specs.Seats.{new_kernel, new_user};

use crate::{KernelSeat, Ring, UserSeat};
use dr_types::{Entry, Memory, entry_words};
use std::alloc::Global;
use std::test::Fail;
use std::thread::join;

/// How many entries go through the ring of two threads.
const ENTRIES: u64 = 1000;

/// The most turns that each of the two threads makes.
const TURNS: u64 = 200_000;

/// A new ring of four places, and its two seats.
fn ring_of_four(alloc: Global) -> Result<(Ring, KernelSeat, UserSeat), Memory>
    ensures size { IfOk result (λ t. t.0.size ≡ 4) }
    ensures kernel { IfOk result (λ t. t.1 ≡ new_kernel t.0.id) }
    ensures user { IfOk result (λ t. t.2 ≡ new_user t.0.id) }
{
    Ring::new(alloc, 4)
}

/// The two words of place 0.
fn first_place(ring: &Ring) -> (u64, u64) {
    (
        ring.words.table.shared.peek(1),
        ring.words.table.shared.peek(2),
    )
}

#[test]
fn words_of_an_entry(rt: HostRuntime) -> Result<(), Fail> {
    let e = Entry { slot: 3, offset: 2 };
    let (dirty, offset) = entry_words(e, 1);
    assert_eq!(rt; (dirty, offset), (0x0000_0003_0000_0001, 2));
    assert_eq!(rt; entry_words(e, 3), (0x0000_0003_0000_0003, 2));
    assert_eq!(rt; dirty.to_le_bytes(), [1, 0, 0, 0, 3, 0, 0, 0]);
    // The same slot of space 1.
    let e = Entry {
        slot: 0x0001_0003,
        offset: 2,
    };
    assert_eq!(rt; entry_words(e, 1), (0x0001_0003_0000_0001, 2));
    Ok(())
}

#[test]
fn words_in_a_ring(rt: HostRuntime) -> Result<(), Fail> {
    let (ring, mut kernel, mut user) = ring_of_four(rt.alloc())?;
    assert_eq!(rt; first_place(&ring), (0, 0));
    kernel.push(&ring, Entry { slot: 3, offset: 2 });
    assert_eq!(rt; first_place(&ring), (0x0000_0003_0000_0001, 2));
    assert!(rt; user.harvest_next(&ring).is_some());
    assert_eq!(rt; first_place(&ring), (0x0000_0003_0000_0003, 2));
    assert!(rt; kernel.reset_next(&ring).is_some());
    assert_eq!(rt; first_place(&ring).0, 0);
    Ok(())
}

#[test]
fn one_entry_goes_through(rt: HostRuntime) -> Result<(), Fail> {
    let e = Entry { slot: 0, offset: 7 };
    let (ring, mut kernel, mut user) = ring_of_four(rt.alloc())?;
    assert!(rt; user.harvest_next(&ring).is_none() && kernel.reset_next(&ring).is_none());
    kernel.push(&ring, e);
    assert!(rt; kernel.used() == 1 && kernel.soft_full(1) && !kernel.soft_full(2));
    assert!(rt; kernel.reset_next(&ring).is_none());
    assert_eq!(rt; user.harvest_next(&ring), Some(e));
    assert!(rt; user.harvest_next(&ring).is_none());
    assert_eq!(rt; kernel.reset_next(&ring), Some(e));
    assert!(rt; kernel.reset_next(&ring).is_none() && kernel.used() == 0);
    Ok(())
}

/// The entry of number k.
fn nth(k: u64) -> Entry {
    Entry {
        slot: (k % 3) as u32,
        offset: k,
    }
}

/// These are the entries 0 to 999, in order.
fn are_all(entries: &[Entry]) -> bool {
    let mut next = 0u64;
    for e in entries {
        if next >= ENTRIES || *e != nth(next) {
            return false;
        }
        next += 1;
    }
    next == ENTRIES
}

/// A kernel seat with the number of its pushes, and what it reset.
type Fed = (KernelSeat, u64, Vec<Entry>);

/// A user seat, and what it harvested.
type Drained = (UserSeat, Vec<Entry>);

/// Pushes and resets until all entries are reset, or the turns are used up.
fn feed(ring: &Ring, alloc: Global, mut kernel: KernelSeat) -> Result<Fed, Memory>
    requires ring { kernel.ring ≡ ring.now.id }
    requires size { ring.now.size ≡ 4 }
    requires empty { kernel.pushed ≡ [] }
    ensures ring { IfOk result (λ t. t.0.ring ≡ ring.now.id) }
    ensures count { IfOk result (λ t. length t.0.pushed ≡ t.1) }
    ensures few { IfOk result (λ t. t.1 ≤ 1000) }
{
    let mut pushed = 0;
    let mut reset = Vec::new(alloc);
    for _ in 0..TURNS {
        if pushed < ENTRIES && kernel.used() < 4 {
            kernel.push(ring, nth(pushed));
            pushed += 1;
        }
        if let Some(e) = kernel.reset_next(ring) {
            reset.push(e)?;
        }
        if reset.len() == ENTRIES as usize {
            break;
        }
    }
    Ok((kernel, pushed, reset))
}

/// Harvests until all entries are harvested, or the turns are used up.
fn drain(ring: &Ring, alloc: Global, mut user: UserSeat) -> Result<Drained, Memory>
    requires { user.ring ≡ ring.now.id }
    ensures { IfOk result (λ t. t.0.ring ≡ ring.now.id) }
{
    let mut harvested = Vec::new(alloc);
    for _ in 0..TURNS {
        if let Some(e) = user.harvest_next(ring) {
            harvested.push(e)?;
        }
        if harvested.len() == ENTRIES as usize {
            break;
        }
    }
    Ok((user, harvested))
}

/// Does on one thread what two have left: each turn resets an entry, as long as any is left.
fn finish(ring: &Ring, fed: Fed, drained: Drained) -> Result<(Vec<Entry>, Vec<Entry>), Memory>
    requires kernel { fed.0.ring ≡ ring.now.id }
    requires user { drained.0.ring ≡ ring.now.id }
    requires size { ring.now.size ≡ 4 }
    requires count { length fed.0.pushed ≡ fed.1 }
    requires few { fed.1 ≤ 1000 }
{
    let (mut kernel, mut pushed, mut reset) = fed;
    let (mut user, mut harvested) = drained;
    for _ in 0..ENTRIES {
        if pushed < ENTRIES && kernel.used() < 4 {
            kernel.push(ring, nth(pushed));
            pushed += 1;
        }
        if let Some(e) = user.harvest_next(ring) {
            harvested.push(e)?;
        }
        if let Some(e) = kernel.reset_next(ring) {
            reset.push(e)?;
        }
    }
    Ok((harvested, reset))
}

#[test]
fn two_threads(rt: HostRuntime) -> Result<(), Fail> {
    let alloc = rt.alloc();
    let (ring, kernel, user) = ring_of_four(alloc)?;
    let shared = &ring;
    let (fed, drained) = join(
        &rt,
        move || feed(shared, alloc, kernel),
        move || drain(shared, alloc, user),
    );
    let (harvested, reset) = finish(&ring, fed?, drained?)?;
    assert!(rt; are_all(harvested.as_slice()));
    assert!(rt; are_all(reset.as_slice()));
    Ok(())
}

/// What the user seat harvested begins what the kernel seat pushed.
fn compare(ring: &Ring, kernel: &mut KernelSeat, user: &mut UserSeat)
    requires kernel { kernel.old.ring ≡ ring.now.id }
    requires user { user.old.ring ≡ ring.now.id }
    ensures { IsPrefix user.new.harvested kernel.new.pushed }
{
    let note = user.note(ring);
    kernel.learn(ring, note);
}

/// An entry of which the user seat has learnt is harvested, and one of which the kernel seat has
/// learnt is reset: both arms that say otherwise are proved never to come.
fn through(ring: &Ring, kernel: &mut KernelSeat, user: &mut UserSeat, e: Entry) -> Entry
    requires kernel { kernel.old ≡ new_kernel ring.now.id }
    requires user { user.old ≡ new_user ring.now.id }
    requires size { ring.now.size ≡ 4 }
    ensures entry { result ≡ e }
    ensures same { (kernel.new.ring ≡ kernel.old.ring) × (user.new.ring ≡ user.old.ring) }
{
    kernel.push(ring, e);
    let pushed = kernel.note(ring);
    user.learn(ring, pushed);
    let Some(_) = user.harvest_next(ring) else {
        unreachable!()
    };
    let harvested = user.note(ring);
    kernel.learn(ring, harvested);
    let Some(reset) = kernel.reset_next(ring) else {
        unreachable!()
    };
    reset
}

#[test]
fn what_was_learnt_comes(rt: HostRuntime) -> Result<(), Fail> {
    let (ring, mut kernel, mut user) = ring_of_four(rt.alloc())?;
    assert!(rt; through(&ring, &mut kernel, &mut user, nth(5)) == nth(5));
    compare(&ring, &mut kernel, &mut user);
    Ok(())
}
