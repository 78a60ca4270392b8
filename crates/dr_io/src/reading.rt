ghost use Rattle.dr_io.specs.Reading.{ReadsAll};

use crate::source::{ReadTurn, Source};
use dr_types::{Bytes, Listed};
use std::alloc::Global;

/// Why not all was read.
#[derive(Clone, Copy, Debug, PartialEq, Eq)]
pub enum ReadFault {
    /// A read failed.
    Failed,
    /// More bytes than the limit were taken.
    TooLong,
    /// An allocation was refused.
    Memory,
}

/// All that is left, where that is at most `limit` bytes. After an `Err` the bytes taken are gone
/// from the source, and there are at most 4,096 more of them than `limit`.
pub fn read_all<S: Source>(alloc: Global, source: &mut S, limit: u64) -> Result<Bytes, ReadFault>
    ensures { ReadsAll limit (S.remaining source.old) (S.faults source.old) result
        (S.remaining source.new) (S.faults source.new) }
{
    let mut all = Listed::new(alloc);
    let mut buf = [0; 4096];
    for turn in 0..limit {
        match source.read(&mut buf) {
            ReadTurn::Failed => return Err(ReadFault::Failed),
            ReadTurn::End => return Ok(all),
            ReadTurn::Bytes(n) => {
                if all.append(&buf[..n]).is_err() {
                    return Err(ReadFault::Memory);
                }
                if all.len() as u64 > limit {
                    return Err(ReadFault::TooLong);
                }
            }
        }
    }
    match source.read(&mut buf) {
        ReadTurn::Failed => Err(ReadFault::Failed),
        ReadTurn::End => Ok(all),
        ReadTurn::Bytes(_) => Err(ReadFault::TooLong),
    }
}
