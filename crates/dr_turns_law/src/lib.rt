//! That no turn of a machine breaks a rule, and what each leaves: ops and exits (`turns`), the
//! deposits, resets and flushes of a reap (`reaps`), and the migrator's turns (`advances`).
#![tactic(auto)]

mod advances;
mod reaps;
mod turns;

pub use advances::{
    advance_breaks_no_rule, advance_leaves_entries, advance_leaves_turns_end,
    answered_advance_covers_opened, copied_page_is_least, named_entry_is_least,
};
pub use reaps::{closes_before_switch, deposits_before_reset, resets_before_switch};
pub use turns::{
    budget_is_spent, exit_leaves_turns_end, op_leaves_turns_end, push_finds_place,
    push_leaves_turns_end, search_finds_least, start_leaves_turns_end,
};
