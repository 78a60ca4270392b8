ghost use Rattle.std.specs.Prelude.{
  ◌≡◌,
  ◌+◌,
  ◌≤◌,
  ◌<◌,
  ◌^◌,
  ◌++◌,
  map,
  All,
  OnOk,
  IfOk,
  string_bytes,
  true,
  false,
};
ghost use Rattle.dr_report.specs.Tallies.{begun, answered};
ghost use Rattle.dr_history.specs.Report.{vcpu_line};
ghost use Rattle.dr_report.specs.declared.answer.Answer.{Answer};
ghost use Rattle.dr_report.specs.Answers.{one_more_copied};
ghost use Rattle.dr_report.specs.Draft.{after, finished, CanTake, vcpu_lines, ending};

use crate::answer::{Answer, push_answer};
use crate::tally::{Tally, vcpu_of};
use dr_history::Event;
use dr_types::Memory;
use std::fmt::Write;
use std::marker::Model;

/// A report as far as its events were read.
#[derive(Drop)]
pub struct Draft {
    text: String,
    tallies: Vec<Tally>,
    answer: Option<Answer>,
    time: u64,
    switched: bool,
}

impl Model for Draft {
    ghost use Rattle.std.specs.Prelude.{string_bytes};
    ghost use Rattle.dr_report.specs.Draft.{Sheet};

    ghost Value = { Sheet };

    ghost view = { λ d. record {
      text = string_bytes d.text;
      tallies = d.tallies.items;
      answer = d.answer;
      time = d.time;
      switched = d.switched;
    } };
}

impl Draft {
    /// A draft with this text and these tallies, and no event.
    pub fn new(text: String, tallies: Vec<Tally>) -> Draft
        ensures { result ≡ record {
          text = string_bytes text;
          tallies = tallies.items;
          answer = None;
          time = 0;
          switched = false;
        } }
    {
        Draft {
            text,
            tallies,
            answer: None,
            time: 0,
            switched: false,
        }
    }

    /// Takes the next event.
    pub fn take(&mut self, e: &Event) -> Result<(), Memory>
        requires { CanTake e.now self.old }
        ensures { OnOk result (self.new ≡ after e.now self.old) }
    {
        match e {
            Event::Start { at } => {
                begin(self.tallies.as_mut_slice());
                self.time = *at;
            }
            Event::Synced { r, at, pages } => {
                push_answer(&mut self.text, self.answer, self.tallies.as_slice())?;
                answer_all(self.tallies.as_mut_slice(), at.saturating_sub(self.time));
                self.answer = Some(Answer {
                    round: *r,
                    dirty: pages.len(),
                    copied: 0,
                    at: *at,
                });
                self.time = *at;
            }
            Event::Copied { .. } => self.answer = copied_more(self.answer),
            Event::Switched => self.switched = true,
            _ => {
                if let Some(v) = vcpu_of(e) {
                    self.tallies[v as usize].count(e);
                }
            }
        }
        Ok(())
    }

    /// The whole report of the events taken.
    pub fn finish(self) -> Result<String, Memory>
        ensures { IfOk result (λ text. string_bytes text ≡ finished self) }
    {
        let mut text = self.text;
        push_answer(&mut text, self.answer, self.tallies.as_slice())?;
        push_vcpus(&mut text, self.tallies.as_slice())?;
        push_ending(&mut text, self.switched)?;
        Ok(text)
    }
}

/// Begins a new span of time.
fn begin(tallies: &mut [Tally])
    ensures { tallies.new ≡ map begun tallies.old }
{
    for tally in tallies.iter_mut() {
        tally.entries = 0;
    }
}

/// Keeps each tally's entries and rate for an answer.
fn answer_all(tallies: &mut [Tally], span: u64)
    requires { All (λ t. t.entries ≤ 200000) tallies.old }
    ensures { tallies.new ≡ map (answered span) tallies.old }
{
    for tally in tallies.iter_mut() {
        tally.answer(span);
    }
}

/// The answer with one more page copied.
fn copied_more(answer: Option<Answer>) -> Option<Answer>
    requires { (a : Answer) → answer ≡ Some a → a.copied < 2 ^ 63 }
    ensures { result ≡ one_more_copied answer }
{
    answer.map(|a| Answer {
        copied: a.copied + 1,
        ..a
    })
}

/// Adds a vCPU's line.
#[tactic(auto, unfolding(dr_history::specs::Report::vcpu_line, dr_types::specs::Lines::line_text))]
fn push_vcpu(text: &mut String, v: usize, tally: &Tally) -> Result<(), Memory>
    ensures { OnOk result (string_bytes text.new ≡ string_bytes text.old
        ++ vcpu_line v tally.now.ops tally.now.full_exits tally.now.kicked_exits) }
{
    let ops = tally.ops;
    let full = tally.full_exits;
    let kicked = tally.kicked_exits;
    write!(text, "vcpu {v} ops {ops} full {full} kicked {kicked}\n")?;
    Ok(())
}

/// Adds each vCPU's line.
fn push_vcpus(text: &mut String, tallies: &[Tally]) -> Result<(), Memory>
    ensures { OnOk result (string_bytes text.new
        ≡ string_bytes text.old ++ vcpu_lines tallies.now) }
{
    for (v, tally) in tallies.iter().enumerate() {
        push_vcpu(text, v, tally)?;
    }
    Ok(())
}

/// Adds the last line.
#[tactic(auto, unfolding(dr_types::specs::Lines::line_text))]
fn push_ending(text: &mut String, switched: bool) -> Result<(), Memory>
    ensures { OnOk result (string_bytes text.new ≡ string_bytes text.old ++ ending switched) }
{
    let word = if switched { "switched" } else { "unfinished" };
    write!(text, "{word}\n")?;
    Ok(())
}
