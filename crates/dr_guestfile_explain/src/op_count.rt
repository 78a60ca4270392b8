use crate::found::Found;
use dr_guestfile::Keyword;

/// How many ops some lines of scripts stand for, each repetition counted.
#[derive(Clone, Copy)]
pub struct OpCount {
    /// Those outside of a `rep` that is still open.
    closed: u64,
    /// How often the open `rep` repeats its body.
    times: Option<u64>,
    /// The ops of its body so far, each once.
    body: u64,
}

impl OpCount {
    /// No ops yet.
    pub fn none() -> OpCount {
        OpCount {
            closed: 0,
            times: None,
            body: 0,
        }
    }

    /// With one op more.
    fn with_op(self) -> OpCount {
        match self.times {
            Some(_) => OpCount {
                body: self.body.saturating_add(1),
                ..self
            },
            None => OpCount {
                closed: self.closed.saturating_add(1),
                ..self
            },
        }
    }

    /// With the open `rep` closed.
    fn with_end(self) -> OpCount {
        let repeated = self.times.unwrap_or(0).saturating_mul(self.body);
        OpCount {
            closed: self.closed.saturating_add(repeated),
            times: None,
            body: 0,
        }
    }

    /// With one line more.
    pub fn after(self, found: &Found<'_>) -> OpCount {
        match found.keyword() {
            Some(Keyword::Rep) => OpCount {
                times: found.number(),
                body: 0,
                ..self
            },
            Some(Keyword::End) => self.with_end(),
            Some(
                Keyword::Write
                | Keyword::Fill
                | Keyword::Read
                | Keyword::Add
                | Keyword::Store
                | Keyword::Nap
                | Keyword::Halt,
            ) => self.with_op(),
            _ => self,
        }
    }

    /// The ops outside of an open `rep`.
    pub fn closed(self) -> u64 {
        self.closed
    }
}
