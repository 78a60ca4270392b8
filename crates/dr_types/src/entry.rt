ghost use Rattle.std.specs.Prelude.{◌≡◌, ◌≤◌};
ghost use Rattle.dr_types.specs.Words.{first_word, flags_in, entry_in};

/// A dirty page as a ring entry names it: its slot field, which is the address space of its slot
/// times 65536 and the id of the slot, and its offset in pages inside the slot.
#[derive(Clone, Copy, Debug, PartialEq, Eq)]
pub struct Entry {
    pub slot: u32,
    pub offset: u64,
}

/// The entry word, with the flags in its low half and the slot in its high half, and the offset
/// word.
pub fn entry_words(e: Entry, flags: u32) -> (u64, u64)
    requires { flags ≤ 3 }
    ensures { result ≡ (first_word e flags, e.offset) }
{
    (u64::from(e.slot) << 32 | u64::from(flags), e.offset)
}

/// The low half of an entry word.
pub fn flags_of(word: u64) -> u32
    ensures { result ≡ flags_in word }
{
    (word & 0xFFFF_FFFF) as u32
}

/// The entry that two words show.
pub fn words_entry(first: u64, second: u64) -> Entry
    ensures { result ≡ entry_in first second }
{
    Entry {
        slot: (first >> 32) as u32,
        offset: second,
    }
}

/// Words and entries agree: the entry and the flags that were written come back.
pub fn words_agree(e: Entry, flags: u32) -> (Entry, u32)
    requires { flags ≤ 3 }
    ensures entry { result.0 ≡ e }
    ensures flags { result.1 ≡ flags }
{
    let (first, second) = entry_words(e, flags);
    (words_entry(first, second), flags_of(first))
}
