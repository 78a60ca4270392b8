ghost use Rattle.std.specs.Prelude.{◌≡◌, ℕ, false, None};
ghost use Rattle.dr_types.specs.Ports.{Ports, told_at};
ghost use Rattle.dr_io.specs.Puts.{Puts};

use dr_types::Port;

/// How a put ended.
#[derive(Clone, Copy, Debug, PartialEq, Eq)]
pub enum PutTurn {
    /// All bytes were taken.
    Done,
    /// At most a first part of them was taken.
    Failed,
}

/// What takes the bytes of four ports. It tells the bytes of a port, or nothing of it, and counts
/// its faults.
pub trait Outlet: Drop {
    ghost told: { Self → Ports };

    ghost faults: { Self → ℕ };

    /// Whether bytes that are put on a port go anywhere. Where they don't, nothing is told of the
    /// port, and what would be put there need not be made.
    fn is_wanted(&self, port: Port) -> bool
        ensures { result ≡ false → told_at port (told self.now) ≡ None }
    {
        true
    }

    /// Adds bytes to a port. Where it fails, some first part of them was added, and the count of
    /// faults has risen.
    fn put(&mut self, port: Port, bytes: &[u8]) -> PutTurn
        ensures { Puts (told self.old) (faults self.old) port bytes.now result
            (told self.new) (faults self.new) };
}
