/// Where bytes go.
#[derive(Clone, Copy, Debug, PartialEq, Eq)]
pub enum Port {
    /// The report, for people.
    Report,
    /// The migration stream.
    Stream,
    /// The destination's memory.
    Image,
    /// The guest and each event of its run.
    Journal,
}
