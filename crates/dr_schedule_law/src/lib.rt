//! The schedule: which block of events follows those before it (`schedule`, `tells`), what reaps
//! leave (`reaps`), and why a drive by the schedule comes to its end: each turn adds events
//! (`growth`), and a guest's legal history has a bounded number of them (`bounds`). Where it ends
//! without a switch-over, its rounds are spent (`spent`).
#![tactic(auto)]

mod bounds;
mod growth;
mod reaps;
mod schedule;
mod spent;
mod tells;

pub use bounds::events_are_bounded;
pub use growth::{
    advance_adds_events, advance_leaves_events, exit_adds_events, op_adds_events,
    reap_after_full_adds_events, reap_of_full_adds_events, reap_of_unreset_adds_events,
};
pub use reaps::{
    advance_deposits_nothing, cut_settling_leaves_part_of_reap, exit_deposits_nothing,
    op_deposits_nothing, range_of_one_rests, ranges_of_all_rest, reap_deposits_all,
    reap_extends_events, reap_pushes_nothing, reap_resets_all, rest_fits_ring,
    settling_leaves_reap,
};
pub use schedule::{
    advance_follows, any_advance_follows, block_adds_its_time, blocks_follow_blocks,
    cut_begins_schedule, cut_follows_blocks, exit_follows, flush_follows, following_is_scheduled,
    halt_follows, no_block_follows, op_alone_ends_turn, op_follows,
    part_of_reap_after_full_ends_turn, part_of_reap_ends_turn, reap_after_full_follows,
    reap_follows, schedule_is_cut_at_turn, whole_blocks_are_cut_at_turn,
};
pub use spent::{
    rounds_are_spent, spent_rounds_end_the_run, spent_rounds_run_on, spent_rounds_stay_spent,
};
pub use tells::{
    awaited_full_vcpu_is_inside, awaited_op_exists, budget_ends_run, finished_has_switched,
    full_alone_refuses, not_flushed_awaits_flush, not_out_awaits_exit, not_paced_awaits_op,
    not_reset_awaits_reset, switched_switches,
};
