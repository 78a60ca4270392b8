ghost use Rattle.std.specs.Prelude.{◌≡◌, IfOk, IfErr, OnOk};
ghost use Rattle.dr_command_io.specs.Taking.{IsDrained, Takes};
ghost use Rattle.dr_plain.specs.Input.{IsRead, IsRefusal, most_guest_bytes, status_of_fault};

use dr_command_io::read_whole;
use dr_guestfile::read_guest;
use dr_io::Source;
use dr_types::limits::MOST_GUEST_BYTES;
use dr_types::{FileFault, Guest, Status};
use std::alloc::Global;

/// The status of a guest file that was not read.
fn status_of(why: FileFault) -> Status
    ensures { result ≡ status_of_fault why }
{
    match why {
        FileFault::Memory => Status::Memory,
        _ => Status::GuestFile(why),
    }
}

/// Reads a source to its end, and the guest that its bytes say. The status says why there is none.
#[tactic(auto, using(crate::proofs::Reading::unread_refusal))]
pub fn read_input<S: Source>(alloc: Global, source: &mut S) -> Result<Guest, Status>
    ensures read { IfOk result (λ guest. IsRead (S.remaining source.old) guest) }
    ensures drained { OnOk result
        (IsDrained most_guest_bytes (S.remaining source.old) (S.remaining source.new)) }
    ensures takes { IfErr result (λ s.
        Takes most_guest_bytes s (S.remaining source.old) (S.remaining source.new)) }
    ensures refusal { IfErr result (λ s.
        IsRefusal s (S.remaining source.old) (S.faults source.old) (S.faults source.new)) }
{
    let bytes = read_whole(alloc, source, MOST_GUEST_BYTES)?;
    match read_guest(alloc, bytes.as_slice()) {
        Ok(guest) => Ok(guest),
        Err(why) => Err(status_of(why)),
    }
}
