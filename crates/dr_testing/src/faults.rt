ghost use Rattle.std.specs.Prelude.{◌≡◌};
ghost use Rattle.dr_testing.specs.Rows.{fault_at};

use dr_types::{FileFault, What};

/// What is wrong with a line.
#[derive(Clone, Copy)]
pub enum Kind {
    /// The first line is another.
    Magic,
    /// It may not stand there, or has the wrong number of words.
    Line,
    /// A word is no number of its place.
    Number,
    /// The size of the rings is wrong.
    RingSize,
    /// Reserve and buffer are too large.
    Reserve,
    /// Its id was used.
    SlotTwice,
    /// Its page lies in no slot.
    Unmapped,
    /// Its bytes cross a page.
    CrossPage,
    /// It makes something too large.
    TooLarge(What),
}

impl Kind {
    /// The fault of the line with this number.
    pub fn at(self, no: u64) -> FileFault
        ensures { result ≡ fault_at self no }
    {
        match self {
            Kind::Magic => FileFault::Magic { no },
            Kind::Line => FileFault::Line { no },
            Kind::Number => FileFault::Number { no },
            Kind::RingSize => FileFault::RingSize { no },
            Kind::Reserve => FileFault::Reserve { no },
            Kind::SlotTwice => FileFault::SlotTwice { no },
            Kind::Unmapped => FileFault::Unmapped { no },
            Kind::CrossPage => FileFault::CrossPage { no },
            Kind::TooLarge(what) => FileFault::TooLarge { what, no },
        }
    }
}
