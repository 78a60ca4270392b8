ghost use Rattle.std.specs.Prelude.{◌≡◌, IfOk};
ghost use Rattle.dr_loader.specs.Puts.{line_of};

use dr_types::{Memory, Text};
use std::alloc::Global;
use std::fmt::Write;

/// The line of a stream that was loaded: how many pages and how many records of pages it has.
#[tactic(auto, unfolding(dr_types::specs::Lines::line_text))]
pub fn loaded_line(alloc: Global, pages: u32, records: u32) -> Result<Text, Memory>
    ensures { IfOk result (λ line. line ≡ line_of pages records) }
{
    let mut line = String::new(alloc);
    write!(line, "loaded pages {pages} records {records}\n")?;
    Ok(Text::from_string(line))
}
