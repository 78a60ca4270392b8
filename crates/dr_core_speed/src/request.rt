//! What the program is asked for.

ghost use Rattle.std.specs.Prelude.{◌≡◌, ◌∷◌, [], true, IfOk, decimal, string_bytes};
ghost use Rattle.dr_types.specs.Lines.{line_text};
ghost use Rattle.dr_core_speed.specs.Requests.{IsRequest};

use crate::fault::RunFault;
use dr_guestfile_lines::{Words, number};
use dr_io::{ReadFault, Source, read_all};
use dr_types::Memory;
use std::alloc::Global;

/// How many bytes a request has at most.
const MOST_BYTES: u64 = 64;

/// The most events that may be asked for.
const MOST_EVENTS: u64 = 10_000_000;

/// The most guests that may be asked for.
const MOST_GUESTS: u64 = 64;

/// How many guests share the events where the request doesn't say it.
const USUAL_GUESTS: u64 = 4;

/// How many events are wanted, and how many guests share them.
#[derive(Clone, Copy)]
pub struct Request {
    pub events: u64,
    pub guests: u64,
}

impl Request {
    /// How many events are wanted of each guest.
    pub fn share(self) -> u32 {
        u32::try_from(self.events.div_ceil(self.guests.max(1))).unwrap_or(u32::MAX)
    }
}

/// The line is this number and a line feed.
#[tactic(auto, unfolding(dr_types::specs::Lines::line_text))]
fn is_one_number(alloc: Global, line: &[u8], events: u64) -> Result<bool, Memory>
    ensures { IfOk result (λ is. is ≡ true → line.now ≡ line_text (decimal events ∷ [])) }
{
    let text = format!(in alloc; "{events}\n")?;
    Ok(text.as_bytes() == line)
}

/// The line of two numbers.
#[tactic(auto, unfolding(dr_types::specs::Lines::line_text))]
fn two_numbers(alloc: Global, events: u64, guests: u64) -> Result<String, Memory>
    ensures { IfOk result (λ text. string_bytes text
        ≡ line_text (decimal events ∷ decimal guests ∷ [])) }
{
    Ok(format!(in alloc; "{events} {guests}\n")?)
}

/// The line is these numbers with a space between them, and a line feed.
fn is_two_numbers(alloc: Global, line: &[u8], events: u64, guests: u64) -> Result<bool, Memory>
    ensures { IfOk result (λ is. is ≡ true
        → line.now ≡ line_text (decimal events ∷ decimal guests ∷ [])) }
{
    let text = two_numbers(alloc, events, guests)?;
    Ok(text.as_bytes() == line)
}

/// The numbers that the words of a line may be, without a look at what stands between them.
fn numbers_in(line: &[u8]) -> Option<Request> {
    let words = &line[..line.len().saturating_sub(1)];
    if let Some(word) = Words::of(words).one() {
        return Some(Request {
            events: number(word, 1, MOST_EVENTS)?,
            guests: USUAL_GUESTS,
        });
    }
    let (events, guests) = Words::of(words).two()?;
    Some(Request {
        events: number(events, 1, MOST_EVENTS)?,
        guests: number(guests, 1, MOST_GUESTS)?,
    })
}

/// The line is this request.
fn is_request(alloc: Global, line: &[u8], request: Request) -> Result<bool, Memory>
    ensures { IfOk result (λ is. is ≡ true → IsRequest line.now request) }
{
    if request.guests == USUAL_GUESTS && is_one_number(alloc, line, request.events)? {
        return Ok(true);
    }
    is_two_numbers(alloc, line, request.events, request.guests)
}

/// The request of a line: a number of events and a line feed, or a number of events, a space, a
/// number of guests and a line feed.
pub fn request_in(alloc: Global, line: &[u8]) -> Result<Request, RunFault>
    ensures { IfOk result (IsRequest line.now) }
{
    let Some(request) = numbers_in(line) else {
        return Err(RunFault::Request);
    };
    if is_request(alloc, line, request)? {
        Ok(request)
    } else {
        Err(RunFault::Request)
    }
}

/// The request that a source has.
pub fn read_request<S: Source>(alloc: Global, source: &mut S) -> Result<Request, RunFault> {
    match read_all(alloc, source, MOST_BYTES) {
        Ok(line) => request_in(alloc, line.as_slice()),
        Err(ReadFault::Memory) => Err(RunFault::Memory),
        Err(_) => Err(RunFault::Request),
    }
}
