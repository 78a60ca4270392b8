/// What an executed op asks of its vCPU's thread.
#[derive(Clone, Copy, Debug, PartialEq, Eq)]
pub enum Step {
    /// Nothing: it goes on.
    Plain,
    /// To sleep for so many microseconds.
    Nap(u32),
    /// To leave the guest: the script has ended.
    Halted,
}
