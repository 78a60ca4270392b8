ghost use Rattle.std.specs.Prelude.{◌≡◌, ◌++◌, string_bytes, OnOk};
ghost use Rattle.dr_history.specs.Report.{share_line};
ghost use Rattle.dr_report.specs.Answers.{answer_line, shares, answer_text};

use crate::tally::Tally;
use dr_types::Memory;
use std::fmt::Write;

/// An answer, and how many of its pages were copied so far.
#[derive(Clone, Copy, Debug)]
pub struct Answer {
    pub round: u32,
    pub dirty: usize,
    pub copied: u64,
    pub at: u64,
}

/// Adds the first line of an answer.
#[tactic(auto, unfolding(dr_history::specs::Report::round_line, dr_types::specs::Lines::line_text))]
fn push_answer_line(text: &mut String, answer: &Answer) -> Result<(), Memory>
    ensures { OnOk result (string_bytes text.new
        ≡ string_bytes text.old ++ answer_line answer.now) }
{
    let Answer {
        round,
        dirty,
        copied,
        at,
    } = *answer;
    write!(
        text,
        "round {round} dirty {dirty} copied {copied} at {at}\n"
    )?;
    Ok(())
}

/// Adds a vCPU's line of an answer.
#[tactic(auto, unfolding(dr_history::specs::Report::share_line, dr_types::specs::Lines::line_text))]
fn push_share(text: &mut String, v: usize, tally: &Tally) -> Result<(), Memory>
    ensures { OnOk result (string_bytes text.new ≡ string_bytes text.old
        ++ share_line v tally.now.answered_entries tally.now.answered_rate tally.now.throttle_us) }
{
    let entries = tally.answered_entries;
    let rate = tally.answered_rate;
    let us = tally.throttle_us;
    write!(
        text,
        "  vcpu {v} entries {entries} rate {rate} throttle {us}\n"
    )?;
    Ok(())
}

/// Adds each vCPU's line of an answer.
fn push_shares(text: &mut String, tallies: &[Tally]) -> Result<(), Memory>
    ensures { OnOk result (string_bytes text.new ≡ string_bytes text.old ++ shares tallies.now) }
{
    for (v, tally) in tallies.iter().enumerate() {
        push_share(text, v, tally)?;
    }
    Ok(())
}

/// Adds the lines of an answer, where there is one.
pub fn push_answer(
    text: &mut String,
    answer: Option<Answer>,
    tallies: &[Tally],
) -> Result<(), Memory>
    ensures { OnOk result (string_bytes text.new
        ≡ string_bytes text.old ++ answer_text tallies.now answer) }
{
    if let Some(answer) = answer {
        push_answer_line(text, &answer)?;
        push_shares(text, tallies)?;
    }
    Ok(())
}
