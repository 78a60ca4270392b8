use crate::found::Found;
use crate::op_count::OpCount;
use dr_guestfile::Keyword;
use dr_guestfile_lines::{Line, Lines, decimal, number, spaced_number};
use dr_types::limits::{GREATEST_SLOT_ID, MOST_SLOTS};
use dr_types::{FileFault, Memory, SlotRow};
use std::alloc::Global;

/// What the lines above a line leave to stand there.
#[derive(Clone, Copy)]
pub enum Spot {
    /// The first line.
    First,
    /// The line of this setting.
    Setting(Keyword),
    /// The first slot line.
    FirstSlot,
    /// A slot line, or the first `vcpu`.
    Slots,
    /// A line of a script.
    Script,
    /// A line of the `rep` that stands on line `no`; it is empty up to here.
    Repeat { no: u64, is_empty: bool },
    /// A `vcpu` after a script.
    Halted,
}

/// A slot line.
#[derive(Clone, Copy)]
pub struct SlotLine<'a> {
    pub no: u64,
    pub slot: SlotRow,
    pub found: Found<'a>,
}

/// What stands on the line.
#[derive(Clone, Copy)]
pub enum Seen<'a> {
    Line(Found<'a>),
    /// The file ends before it.
    End,
    /// Nothing that is read.
    Nothing,
}

/// What the lines above a line say.
#[derive(Drop)]
pub struct Above<'a> {
    /// The version of the file.
    pub version: u32,
    pub spot: Spot,
    pub ring: Option<u64>,
    pub reserve: Option<u64>,
    pub rounds: Option<u64>,
    /// The pages of all slots together.
    pub pages: u64,
    /// The first slot lines, as many as there may be.
    pub slots: Vec<SlotLine<'a>>,
    /// The ops of all scripts.
    pub ops: OpCount,
}

/// A line, and what the lines above it say.
#[derive(Drop)]
pub struct Scene<'a> {
    pub above: Above<'a>,
    pub seen: Seen<'a>,
}

/// What may stand after the line of a setting.
fn after_setting(setting: Keyword) -> Spot {
    match setting {
        Keyword::Ring => Spot::Setting(Keyword::Reserve),
        Keyword::Reserve => Spot::Setting(Keyword::Buffer),
        Keyword::Buffer => Spot::Setting(Keyword::Pace),
        Keyword::Pace => Spot::Setting(Keyword::Threshold),
        Keyword::Threshold => Spot::Setting(Keyword::Rounds),
        Keyword::Rounds => Spot::Setting(Keyword::Quota),
        _ => Spot::FirstSlot,
    }
}

/// What may stand after a line of a script.
fn after_op(no: u64, keyword: Option<Keyword>) -> Spot {
    match keyword {
        Some(Keyword::Rep) => Spot::Repeat { no, is_empty: true },
        Some(Keyword::Halt) => Spot::Halted,
        _ => Spot::Script,
    }
}

impl Spot {
    /// What may stand after line `no`, which begins with this keyword.
    fn after(self, no: u64, keyword: Option<Keyword>) -> Spot {
        match self {
            Spot::First => Spot::Setting(Keyword::Ring),
            Spot::Setting(setting) => after_setting(setting),
            Spot::FirstSlot => Spot::Slots,
            Spot::Slots => match keyword {
                Some(Keyword::Vcpu) => Spot::Script,
                _ => Spot::Slots,
            },
            Spot::Script => after_op(no, keyword),
            Spot::Repeat { no, .. } => match keyword {
                Some(Keyword::End) => Spot::Script,
                _ => Spot::Repeat {
                    no,
                    is_empty: false,
                },
            },
            Spot::Halted => Spot::Script,
        }
    }
}

/// The slot that a line of a file of this version says.
pub fn slot_of(version: u32, found: &Found<'_>) -> Option<SlotRow> {
    let (space, id) = spaced_number(version, found.second, u64::from(GREATEST_SLOT_ID))?;
    let base = decimal(found.third)?;
    let pages = number(found.fourth, 1, u64::from(u32::MAX))?;
    Some(SlotRow {
        space,
        id: id as u32,
        base,
        pages: pages as u32,
    })
}

/// The slot field of a slot: its space times 65536, and its id.
pub fn field_of(slot: SlotRow) -> u64 {
    u64::from(slot.space) * 65_536 + u64::from(slot.id)
}

/// The version that the first line says.
fn version_of(found: &Found<'_>) -> u32 {
    if found.second == b"2".as_slice() {
        2
    } else {
        1
    }
}

impl<'a> Above<'a> {
    /// Nothing stands above the first line.
    fn new(alloc: Global) -> Above<'a> {
        Above {
            version: 1,
            spot: Spot::First,
            ring: None,
            reserve: None,
            rounds: None,
            pages: 0,
            slots: Vec::new(alloc),
            ops: OpCount::none(),
        }
    }

    /// Takes in a slot line.
    fn take_slot(&mut self, no: u64, found: Found<'a>) -> Result<(), Memory> {
        let Some(slot) = slot_of(self.version, &found) else {
            return Ok(());
        };
        self.pages = self.pages.saturating_add(u64::from(slot.pages));
        if self.slots.len() < MOST_SLOTS {
            self.slots.push(SlotLine { no, slot, found })?;
        }
        Ok(())
    }

    /// Takes in line `no`.
    fn take(&mut self, no: u64, found: Found<'a>) -> Result<(), Memory> {
        let keyword = found.keyword();
        match keyword {
            Some(Keyword::Dirtyguest) => self.version = version_of(&found),
            Some(Keyword::Ring) => self.ring = found.number(),
            Some(Keyword::Reserve) => self.reserve = found.number(),
            Some(Keyword::Rounds) => self.rounds = found.number(),
            Some(Keyword::Slot) => self.take_slot(no, found)?,
            _ => {}
        }
        self.ops = self.ops.after(&found);
        self.spot = self.spot.after(no, keyword);
        Ok(())
    }

    /// The first slot line above with this slot field.
    pub fn slot_line(&self, field: u64) -> Option<SlotLine<'a>> {
        self.slots
            .iter()
            .copied()
            .find(|line| field_of(line.slot) == field)
    }
}

impl<'a> Scene<'a> {
    /// The pages of all slots together, that of this line too.
    pub fn pages(&self) -> u64 {
        let Seen::Line(found) = self.seen else {
            return self.above.pages;
        };
        match slot_of(self.above.version, &found) {
            Some(slot) => self.above.pages.saturating_add(u64::from(slot.pages)),
            None => self.above.pages,
        }
    }

    /// The ops of all scripts, that of this line too, or those that it closes.
    pub fn ops(&self) -> u64 {
        match self.seen {
            Seen::Line(found) => self.above.ops.after(&found).closed(),
            _ => self.above.ops.closed(),
        }
    }
}

/// What is seen of line `no` where the next line that is read is this one.
fn seen_at<'a>(no: u64, number: u64, found: Found<'a>) -> Seen<'a> {
    if number == no {
        Seen::Line(found)
    } else {
        Seen::Nothing
    }
}

/// What is seen of line `no` where the file ended with this fault.
fn seen_at_end<'a>(no: u64, end: FileFault) -> Seen<'a> {
    if end == (FileFault::Line { no }) {
        Seen::End
    } else {
        Seen::Nothing
    }
}

/// Line `no` of a file, and what the lines above it say.
pub fn scene_at<'a>(alloc: Global, file: &'a [u8], no: u64) -> Result<Scene<'a>, Memory> {
    let mut input = Lines::of(file);
    let mut above = Above::new(alloc);
    'lines: loop {
        match input.need_line() {
            Ok(Line { number, words }) => {
                let found = Found::of(words);
                if number >= no {
                    let seen = seen_at(no, number, found);
                    return Ok(Scene { above, seen });
                }
                above.take(number, found)?;
            }
            Err(end) => {
                let seen = seen_at_end(no, end);
                return Ok(Scene { above, seen });
            }
        }
    }
}
