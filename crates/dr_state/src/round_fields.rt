use dr_types::PageList;

/// The last answer: its round, whether it opened a round, and its pages.
#[derive(Debug, Drop)]
pub struct Answer {
    pub round: u32,
    pub opens: bool,
    pub pages: PageList,
}

/// What was asked, answered and copied, and whether the guest runs. `copies` counts the pages that
/// were copied since the last answer.
#[derive(Drop)]
pub struct Rounds {
    pub threshold: u32,
    pub started: bool,
    pub stopped: bool,
    pub switched: bool,
    pub asks: u64,
    pub unanswered: Option<u32>,
    pub asked_since_stop: bool,
    pub synced_since_stop: bool,
    pub answer: Option<Answer>,
    pub copies: u64,
}
