ghost use Rattle.std.specs.Prelude.{◌≡◌, ◌≤◌, ◌*◌, length, IfOk};
ghost use Rattle.dr_guestfile_lines.specs.Reading.{Answers};
ghost use Rattle.dr_guestfile.specs.ScriptLines.{counted, after_op as placed, line_between};
ghost use Rattle.dr_guestfile.specs.ScriptLines.{line_of_script, end_of_repeat, line_of_repeat};
ghost use Rattle.dr_guestfile.specs.ScriptLines.{section_line as next_sections, finished};
ghost use Rattle.dr_guestfile.specs.ScriptLines.{scripts_in};

use crate::keyword::{Keyword, first_keyword};
use crate::ops::{Places, body_op, op};
use dr_guestfile_lines::{Line, Lines, Words, number};
use dr_types::limits::{MOST_OPS, MOST_VCPUS};
use dr_types::{FileFault, Item, Op, OpList, Script, ScriptList, What};
use std::alloc::Global;

/// The sections that have their `halt`.
#[derive(Drop)]
pub struct Done {
    pub scripts: ScriptList,
    /// The expanded ops so far, those of the section that goes on too.
    pub ops: u32,
}

/// A part of a script that is repeated, up to here.
#[derive(Drop)]
pub struct Repeat {
    /// The items before it.
    pub script: Script,
    pub times: u32,
    pub body: OpList,
}

/// Where the next line stands.
#[derive(Drop)]
pub enum Place {
    /// Before a `vcpu` line.
    Between,
    /// In a script, after these items.
    Script(Script),
    Repeat(Repeat),
}

/// What the lines so far say of the vCPU sections.
#[derive(Drop)]
pub struct Sections {
    pub done: Done,
    pub place: Place,
}

/// The expanded ops so far, with so many more.
#[tactic(auto, unfolding(crate::specs::ScriptLines::counted))]
fn count(ops: u32, more: u128, no: u64) -> Result<u32, FileFault>
    requires { ops ≤ 200000 }
    ensures value { result ≡ counted ops more no }
    ensures few { IfOk result (λ sum. sum ≤ 200000) }
{
    if more > u128::from(MOST_OPS) || u128::from(ops) + more > u128::from(MOST_OPS) {
        return Err(FileFault::TooLarge {
            what: What::Ops,
            no,
        });
    }
    Ok(ops + more as u32)
}

/// A line between two sections.
#[tactic(auto, unfolding(crate::specs::ScriptLines::line_between))]
fn begin(
    alloc: Global,
    done: Done,
    first: Option<Keyword>,
    arguments: &Words<'_>,
    no: u64,
) -> Result<Sections, FileFault>
    ensures value { result ≡ line_between done first arguments.now no }
    ensures ops { IfOk result (λ sections. sections.done.ops ≡ done.ops) }
{
    match first {
        Some(Keyword::Vcpu) if arguments.is_empty() => {}
        _ => return Err(FileFault::Line { no }),
    }
    if done.scripts.len() >= MOST_VCPUS {
        return Err(FileFault::TooLarge {
            what: What::Vcpus,
            no,
        });
    }
    Ok(Sections {
        done,
        place: Place::Script(Script::new(alloc)),
    })
}

/// The sections with one op more.
fn after_op(mut done: Done, mut script: Script, op: Op) -> Result<Sections, FileFault>
    ensures value { Answers result (Ok (placed done script op)) }
    ensures ops { IfOk result (λ sections. sections.done.ops ≡ done.ops) }
{
    script.push(Item::One(op))?;
    if matches!(op, Op::Halt) {
        done.scripts.push(script)?;
        return Ok(Sections {
            done,
            place: Place::Between,
        });
    }
    Ok(Sections {
        done,
        place: Place::Script(script),
    })
}

/// A line of a script.
#[tactic(auto, unfolding(crate::specs::ScriptLines::line_of_script))]
fn script_line(
    alloc: Global,
    places: &Places<'_>,
    done: Done,
    script: Script,
    first: Option<Keyword>,
    arguments: Words<'_>,
    no: u64,
) -> Result<Sections, FileFault>
    requires { done.ops ≤ 200000 }
    ensures value { Answers result (line_of_script places.now.version
        places.now.slots.now done script first arguments.entry no) }
    ensures ops { IfOk result (λ sections. sections.done.ops ≤ 200000) }
{
    if matches!(first, Some(Keyword::Rep)) {
        let word = arguments.one().ok_or(FileFault::Line { no })?;
        let times = number(word, 1, MOST_OPS).ok_or(FileFault::Number { no })?;
        return Ok(Sections {
            done,
            place: Place::Repeat(Repeat {
                script,
                times: times as u32,
                body: OpList::new(alloc),
            }),
        });
    }
    let op = op(places, first, arguments, no)?;
    let ops = count(done.ops, 1, no)?;
    after_op(
        Done {
            scripts: done.scripts,
            ops,
        },
        script,
        op,
    )
}

/// How many ops a repeated part stands for.
fn repeated_ops(times: u32, body: &OpList) -> u128
    ensures { result ≡ times * length body.now }
{
    u128::from(times) * body.len() as u128
}

/// `end`, which ends a repeated part.
#[tactic(auto, unfolding(crate::specs::ScriptLines::end_of_repeat))]
fn end_repeat(
    done: Done,
    part: Repeat,
    arguments: &Words<'_>,
    no: u64,
) -> Result<Sections, FileFault>
    requires { done.ops ≤ 200000 }
    ensures value { Answers result (end_of_repeat done part arguments.now no) }
    ensures ops { IfOk result (λ sections. sections.done.ops ≤ 200000) }
{
    let Repeat {
        mut script,
        times,
        body,
    } = part;
    if !arguments.is_empty() || body.is_empty() {
        return Err(FileFault::Line { no });
    }
    let ops = count(done.ops, repeated_ops(times, &body), no)?;
    script.push(Item::Rep { n: times, body })?;
    Ok(Sections {
        done: Done {
            scripts: done.scripts,
            ops,
        },
        place: Place::Script(script),
    })
}

/// A line of a repeated part.
#[tactic(auto, unfolding(crate::specs::ScriptLines::line_of_repeat))]
fn repeat_line(
    places: &Places<'_>,
    done: Done,
    mut part: Repeat,
    first: Option<Keyword>,
    arguments: Words<'_>,
    no: u64,
) -> Result<Sections, FileFault>
    requires { done.ops ≤ 200000 }
    ensures value { Answers result (line_of_repeat places.now.version
        places.now.slots.now done part first arguments.entry no) }
    ensures ops { IfOk result (λ sections. sections.done.ops ≤ 200000) }
{
    match first {
        Some(Keyword::End) => end_repeat(done, part, &arguments, no),
        _ => {
            let op = body_op(places, first, arguments, no)?;
            part.body.push(op)?;
            Ok(Sections {
                done,
                place: Place::Repeat(part),
            })
        }
    }
}

/// The sections after one more line.
fn section_line(
    alloc: Global,
    places: &Places<'_>,
    sections: Sections,
    line: Line<'_>,
) -> Result<Sections, FileFault>
    requires { sections.done.ops ≤ 200000 }
    ensures value { Answers result (next_sections places.now.version
        places.now.slots.now sections line.entry) }
    ensures ops { IfOk result (λ sections. sections.done.ops ≤ 200000) }
{
    let no = line.number;
    let (first, arguments) = first_keyword(line.words);
    let Sections { done, place } = sections;
    match place {
        Place::Between => begin(alloc, done, first, &arguments, no),
        Place::Script(script) => script_line(alloc, places, done, script, first, arguments, no),
        Place::Repeat(part) => repeat_line(places, done, part, first, arguments, no),
    }
}

/// The scripts at the end of the input, or else this fault.
fn finish(sections: Sections, fault: FileFault) -> Result<ScriptList, FileFault>
    ensures { result ≡ finished sections.place sections.done.scripts fault }
{
    match sections.place {
        Place::Between if !sections.done.scripts.is_empty() => Ok(sections.done.scripts),
        _ => Err(fault),
    }
}

/// The vCPU sections, up to the end of the input.
pub fn scripts(
    alloc: Global,
    places: &Places<'_>,
    input: &mut Lines<'_>,
) -> Result<ScriptList, FileFault>
    ensures { Answers result (scripts_in places.now.version places.now.slots.now input.old) }
{
    let mut sections = Sections {
        done: Done {
            scripts: ScriptList::new(alloc),
            ops: 0,
        },
        place: Place::Between,
    };
    'lines: loop {
        match input.need_line() {
            Ok(line) => sections = section_line(alloc, places, sections, line)?,
            Err(fault) => return finish(sections, fault),
        }
    }
}
