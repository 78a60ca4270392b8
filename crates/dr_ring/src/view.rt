//! What a seat knows of a ring. No value of these types is made: contracts alone see them.
use dr_types::Entry;

/// Which seat it is, and between which of its steps it stands.
pub enum Role {
    /// The only seat of a new ring.
    Both,
    /// The kernel seat between its calls.
    Kernel,
    /// The kernel seat between the two stores of a push, with the offset that it stored.
    Pushing(u64),
    /// The kernel seat between the load of a harvested entry word and its store of 0.
    Resetting,
    /// The user seat between its calls.
    User,
    /// The user seat after the load of a dirty entry word, with the slot in it.
    Dirty(u32),
    /// The user seat after both loads, with the entry that they show.
    Copied(Entry),
    /// A copy of what the kernel seat knew.
    KernelNote,
    /// A copy of what the user seat knew.
    UserNote,
    /// A note that was learnt.
    Spent,
}

/// What a seat knows. A clause reads an array as a list of any length.
pub struct View {
    pub role: Role,
    /// What the kernel seat has pushed, or what the user seat has harvested.
    pub entries: [Entry; 0],
    /// How many entries the kernel seat has reset.
    pub reset: u64,
    /// How many harvests the kernel seat knows of, or how many pushes the user seat knows of.
    pub known: u64,
    /// The entry words that the seat has loaded, each after the index of its word.
    pub loaded: [(u64, u64); 0],
    /// The list of the note that the seat learnt last.
    pub told: [Entry; 0],
}
