//! How a text names an address space: `1:` before a number names space 1, and nothing space 0.

ghost use Rattle.std.specs.Prelude.{◌≡◌, ◌≤◌};
ghost use Rattle.dr_types.specs.Spaces.{space_prefix, spaced};

/// What stands before a number of an address space in a text.
pub fn space_prefix(space: u32) -> &'static str
    ensures { result.now ≡ space_prefix space }
{
    if space == 0 { "" } else { "1:" }
}

/// The address space that a word names, and what is left of the word. In version 1 of the guest
/// file no word names space 1.
pub fn split_space(version: u32, word: &[u8]) -> (u32, &[u8])
    ensures space { result.0 ≡ (spaced version word.now).0 }
    ensures most { result.0 ≤ 1 }
    ensures rest { result.1.now ≡ (spaced version word.now).1 }
{
    if version == 2 && word.starts_with(b"1:") {
        (1, &word[2..])
    } else {
        (0, word)
    }
}
