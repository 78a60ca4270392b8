use dr_types::Memory;

/// Why the puts of a command came to an early end.
#[derive(Clone, Copy, Debug, PartialEq, Eq)]
pub enum PutFault {
    /// A put failed.
    Outlet,
    /// An allocation was refused.
    Memory,
}

impl From<Memory> for PutFault {
    ghost use Rattle.std.specs.Prelude.{◌≡◌};
    ghost use Rattle.dr_command_io.specs.declared.fault.PutFault.TheVariants.{Memory};

    ghost from_gives = { λ _ fault. fault ≡ Memory };

    fn from(_error: Memory) -> PutFault {
        PutFault::Memory
    }
}
