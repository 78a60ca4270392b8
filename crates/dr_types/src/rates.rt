/// How long a vCPU sleeps at a full exit, in microseconds, and its greatest rate so far, in KiB a
/// second.
#[derive(Clone, Copy, Debug, PartialEq, Eq)]
pub struct Throttle {
    pub us: u64,
    pub peak: u64,
}
