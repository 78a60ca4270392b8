//! The slots of a guest: which page a frame or an address lies in, and where a page lies. Pages are
//! numbered from 0 in the order of the slots, and inside a slot by their offset.
#![tactic(auto)]

mod guest;
mod law;
mod rows;
mod slots;

pub use guest::{page_count, page_of_address, page_of_frame};
pub use law::{
    mapped_space_is_of_a_slot, page_at_inverts_place, place_inverts_page_at, place_is_in_all_pages,
};
pub use rows::{pages_in, slot_field};
pub use slots::Slots;
