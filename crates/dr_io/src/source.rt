ghost use Rattle.std.specs.Prelude.{◌≤◌, ◌<◌, ℕ, List, Option, length};
ghost use Rattle.dr_io.specs.Reading.{Reads};

/// How a read ended: so many bytes came, or nothing is left, or it failed.
#[derive(Clone, Copy, Debug, PartialEq, Eq)]
pub enum ReadTurn {
    /// So many bytes came.
    Bytes(usize),
    /// Nothing is left.
    End,
    /// The read failed, and took nothing.
    Failed,
}

/// What gives bytes. It tells what is left, or nothing, and counts its faults.
pub trait Source {
    ghost remaining: { Self → Option (List ℕ) };

    ghost faults: { Self → ℕ };

    /// Reads some bytes into the front of `buf`, at most as many as it holds, and at least one
    /// unless nothing is left or the read fails.
    fn read(&mut self, buf: &mut [u8]) -> ReadTurn
        requires { 0 < length buf.old }
        ensures { Reads (remaining self.old) (faults self.old) buf.new result
            (remaining self.new) (faults self.new) };
}
