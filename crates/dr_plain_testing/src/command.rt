//! The command `step` over a file in memory.
ghost use Rattle.std.specs.Prelude.{◌≡◌, ◌∷◌, [], IfOk, IfSome, Some, is_some, length};
ghost use Rattle.std.specs.Prelude.{map, string_bytes};
ghost use Rattle.dr_io.specs.Book.{empty_book, told_by};
ghost use Rattle.dr_command.specs.Words.{command_of};
ghost use Rattle.dr_plain.specs.Commands.{SaysOf};
ghost use Rattle.dr_plain_testing.specs.Leaving.{Leaves, step_words};

use dr_io::{ByteSource, Clock, FixedClock, Port, PortBook};
use dr_plain::{PlainEnd, plain_main};
use dr_types::{Listed, NumberList, Status};
use std::alloc::{AllocError, Global};

/// The numbers as a list.
fn numbers(alloc: Global, numbers: &[u64]) -> Result<NumberList, AllocError> {
    Ok(Listed::from_vec(numbers.to_vec(alloc)?))
}

/// How many bytes of a file come at most with a read.
pub const LARGE_PIECE: usize = 4096;

/// A file that comes in pieces of this length, but of no less than a byte, with the reads of these
/// numbers failing.
pub fn source(
    alloc: Global,
    file: &str,
    piece: usize,
    reads: &[u64],
) -> Result<ByteSource, AllocError>
    ensures { IfOk result (λ s. s.remaining ≡ file.now) }
{
    let bytes = Listed::from_vec(file.as_bytes().to_vec(alloc)?);
    Ok(ByteSource::new(bytes, piece.max(1), numbers(alloc, reads)?))
}

/// The words of the command.
fn step_word(alloc: Global) -> Result<Vec<String>, AllocError>
    ensures { IfOk result (λ words. map string_bytes words.items ≡ step_words) }
{
    Ok(vec![in alloc; String::from_str(alloc, "step")?]?)
}

/// What a command left: its status, what is on the ports, and whether its machine was kept.
#[derive(Drop)]
pub struct Ran {
    pub status: Option<Status>,
    pub out: PortBook,
    pub is_kept: bool,
}

/// What a command left, without the machine that was kept.
fn without_machine(end: PlainEnd<PortBook>) -> Ran
    ensures status { result.status ≡ end.status }
    ensures out { result.out ≡ end.out }
    ensures kept { result.is_kept ≡ is_some end.kept }
{
    let PlainEnd {
        status,
        out,
        kept,
        ..
    } = end;
    Ran {
        status,
        out,
        is_kept: kept.is_some(),
    }
}

/// Runs `step` on a source, with the puts of these numbers failing.
pub fn step<C: Clock>(
    alloc: Global,
    source: &mut ByteSource,
    puts: &[u64],
    clock: &C,
) -> Result<Ran, AllocError>
    ensures { IfOk result (λ ran. Leaves source.old.remaining ran.status ran.out ran.is_kept) }
{
    let out = PortBook::new(alloc, numbers(alloc, puts)?);
    let words = step_word(alloc)?;
    Ok(without_machine(plain_main(alloc, words.as_slice(), source, out, clock)))
}

/// Runs `step` on a file that comes in large pieces, with the puts of these numbers failing.
pub fn step_on(alloc: Global, file: &str, puts: &[u64], now: u64) -> Result<Ran, AllocError>
    ensures { IfOk result (λ ran. Leaves file.now ran.status ran.out ran.is_kept) }
{
    let mut source = source(alloc, file, LARGE_PIECE, &[])?;
    step(alloc, &mut source, puts, &FixedClock { now })
}

/// How long stream, image, report and journal are.
pub fn lengths(out: &PortBook) -> [usize; 4]
    ensures { result ≡ length out.now.stream ∷ length out.now.image ∷ length out.now.report
        ∷ length out.now.journal ∷ [] }
{
    [
        out.bytes(Port::Stream).len(),
        out.bytes(Port::Image).len(),
        out.bytes(Port::Report).len(),
        out.bytes(Port::Journal).len(),
    ]
}
