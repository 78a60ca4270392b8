ghost use Rattle.std.specs.Prelude.{◌≡◌, ◌≤◌, OnOk, OnErr, IfErr};
ghost use Rattle.dr_types.specs.Ports.{put_at};
ghost use Rattle.dr_command_io.specs.Puts.{IsFault, PutsPart, status_of_end};

use crate::fault::PutFault;
use dr_io::{Outlet, Port, PutTurn};
use dr_types::Status;

/// One put, which takes no memory. Where it failed a first part of the bytes was put.
pub fn put<O: Outlet>(out: &mut O, port: Port, bytes: &[u8]) -> Result<(), PutFault>
    ensures done { OnOk result (O.told out.new ≡ put_at port bytes.now (O.told out.old)) }
    ensures cut { OnErr result (PutsPart port bytes.now (O.told out.old) (O.told out.new)) }
    ensures later { O.faults out.old ≤ O.faults out.new }
    ensures fault { IfErr result (IsFault (O.faults out.old) (O.faults out.new)) }
    ensures outlet { IfErr result (λ why. why ≡ PutFault.Outlet) }
{
    match out.put(port, bytes) {
        PutTurn::Done => Ok(()),
        PutTurn::Failed => Err(PutFault::Outlet),
    }
}

/// The status of a command, by what its puts answered.
pub fn status_of_puts(end: Result<Status, PutFault>) -> Status
    ensures { result ≡ status_of_end end }
{
    match end {
        Ok(status) => status,
        Err(PutFault::Outlet) => Status::Outlet,
        Err(PutFault::Memory) => Status::Memory,
    }
}
