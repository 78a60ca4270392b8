ghost use Rattle.std.specs.Prelude.{◌≡◌, Err, IfErr, is_ok};

use dr_io::Port;
use std::io;

/// Who has a file already.
#[derive(Clone, Copy, Debug, PartialEq, Eq)]
pub enum Owner {
    /// The input is read from it.
    Input,
    /// It is the file of a port.
    Port(Port),
}

/// Why a port takes no bytes.
#[derive(Clone, Copy, Debug)]
pub enum PortCause {
    /// The system refused to create, to write or to flush its file.
    System(io::Error),
    /// Its file has an owner already.
    Owned(Owner),
}

impl From<io::Error> for PortCause {
    ghost use Rattle.std.specs.Prelude.{◌≡◌};
    ghost use Rattle.dr_io_files.specs.declared.fault.PortCause.TheVariants.{System};

    ghost from_gives = { λ why cause. cause ≡ System why };

    fn from(why: io::Error) -> PortCause {
        PortCause::System(why)
    }
}

/// The port that failed, and why.
#[derive(Clone, Copy, Debug)]
pub struct PortFault {
    pub port: Port,
    pub cause: PortCause,
}

impl PortFault {
    /// What was done at a port, with its name where that failed.
    pub fn at(port: Port, done: Result<(), PortCause>) -> Result<(), PortFault>
        ensures ok { is_ok result ≡ is_ok done }
        ensures fault { IfErr result (λ fault. (fault.port ≡ port) × (done ≡ Err fault.cause)) }
    {
        match done {
            Ok(()) => Ok(()),
            Err(cause) => Err(PortFault { port, cause }),
        }
    }
}
