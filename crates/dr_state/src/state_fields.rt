use crate::entry_fields::OpenedEntries;
use crate::protection_fields::Protection;
use crate::round_fields::Rounds;
use crate::script_fields::Running;
use crate::throttle_fields::Throttles;
use crate::vcpus::Vcpus;
use dr_memory::PageStore;

/// What the events so far leave.
#[derive(Drop)]
pub struct State {
    pub vcpus: Vcpus,
    pub protection: Protection,
    pub running: Running,
    pub entries: OpenedEntries,
    pub rounds: Rounds,
    pub memory: PageStore,
    pub throttles: Throttles,
}
