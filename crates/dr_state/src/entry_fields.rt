use dr_marks::Roomy;

/// An entry of a ring.
#[derive(Clone, Copy, Debug)]
pub struct OpenedEntry {
    pub page: u32,
    pub deposited: bool,
}

/// The entries that each vCPU opened, by their numbers.
#[derive(Drop)]
pub struct OpenedEntries {
    pub rows: Vec<Roomy<OpenedEntry>>,
}
