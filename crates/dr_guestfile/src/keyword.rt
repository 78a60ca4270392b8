ghost use Rattle.std.specs.Prelude.{◌≡◌};
ghost use Rattle.dr_guestfile_lines.specs.Words.{words_after};
ghost use Rattle.dr_guestfile.specs.Keywords.{spelling as spelling_of, keyword_of};
ghost use Rattle.dr_guestfile.specs.Keywords.{first_keyword as first_of};

use dr_guestfile_lines::Words;

/// The words that a line may begin with.
#[derive(Clone, Copy, Debug, PartialEq, Eq)]
pub enum Keyword {
    Dirtyguest,
    Ring,
    Reserve,
    Buffer,
    Pace,
    Threshold,
    Rounds,
    Quota,
    Slot,
    Vcpu,
    Write,
    Fill,
    Read,
    Add,
    Store,
    Nap,
    Rep,
    End,
    Halt,
}

/// All keywords.
pub const KEYWORDS: [Keyword; 19] = [
    Keyword::Dirtyguest,
    Keyword::Ring,
    Keyword::Reserve,
    Keyword::Buffer,
    Keyword::Pace,
    Keyword::Threshold,
    Keyword::Rounds,
    Keyword::Quota,
    Keyword::Slot,
    Keyword::Vcpu,
    Keyword::Write,
    Keyword::Fill,
    Keyword::Read,
    Keyword::Add,
    Keyword::Store,
    Keyword::Nap,
    Keyword::Rep,
    Keyword::End,
    Keyword::Halt,
];

impl Keyword {
    /// How the keyword is written.
    pub fn spelling(self) -> &'static [u8]
        ensures { result.now ≡ spelling_of self }
    {
        match self {
            Keyword::Dirtyguest => b"dirtyguest",
            Keyword::Ring => b"ring",
            Keyword::Reserve => b"reserve",
            Keyword::Buffer => b"buffer",
            Keyword::Pace => b"pace",
            Keyword::Threshold => b"threshold",
            Keyword::Rounds => b"rounds",
            Keyword::Quota => b"quota",
            Keyword::Slot => b"slot",
            Keyword::Vcpu => b"vcpu",
            Keyword::Write => b"w",
            Keyword::Fill => b"f",
            Keyword::Read => b"r",
            Keyword::Add => b"a",
            Keyword::Store => b"s",
            Keyword::Nap => b"nap",
            Keyword::Rep => b"rep",
            Keyword::End => b"end",
            Keyword::Halt => b"halt",
        }
    }

    /// The keyword that is written so.
    pub fn of(word: &[u8]) -> Option<Keyword>
        ensures { result ≡ keyword_of word.now }
    {
        KEYWORDS
            .iter()
            .copied()
            .find(|keyword| keyword.spelling() == word)
    }
}

/// The keyword that a line begins with, if it does, and the words after the first.
pub fn first_keyword(mut words: Words<'_>) -> (Option<Keyword>, Words<'_>)
    ensures first { result.0 ≡ first_of words.entry }
    ensures rest { result.1 ≡ words_after words.entry }
{
    match words.next_word() {
        None => (None, words),
        Some(word) => (Keyword::of(word), words),
    }
}
