ghost use Rattle.std.specs.Prelude.{IfOk, IfErr, OnOk};
ghost use Rattle.dr_command_io.specs.Taking.{IfTold, IsAll, IsDrained, IsUnread, Takes};

use dr_io::{ReadFault, Source, read_all};
use dr_types::{Bytes, Status};
use std::alloc::Global;

/// All bytes of a source, where they are at most `limit`. The status says why there are none.
pub fn read_whole<S: Source>(alloc: Global, source: &mut S, limit: u64) -> Result<Bytes, Status>
    ensures read { IfOk result (λ bytes. IfTold (S.remaining source.old) (IsAll limit bytes)) }
    ensures drained { OnOk result
        (IsDrained limit (S.remaining source.old) (S.remaining source.new)) }
    ensures takes { IfErr result (λ s.
        Takes limit s (S.remaining source.old) (S.remaining source.new)) }
    ensures unread { IfErr result (λ s. IsUnread limit s (S.remaining source.old)
        (S.faults source.old) (S.faults source.new)) }
{
    match read_all(alloc, source, limit) {
        Ok(bytes) => Ok(bytes),
        Err(ReadFault::Failed) => Err(Status::Source),
        Err(ReadFault::TooLong) => Err(Status::TooLong),
        Err(ReadFault::Memory) => Err(Status::Memory),
    }
}
