//! The plain types of the project: what a guest file says, what a command answers, the words of a
//! ring entry, and the ports that bytes go to.
#![tactic(auto)]

mod entry;
mod fault;
mod guest;
mod hexed;
pub mod limits;
mod list;
mod memory;
mod port;
mod rates;
mod space;
mod status;
mod step;
mod text;

pub use entry::{Entry, entry_words, flags_of, words_agree, words_entry};
pub use fault::{FileFault, StreamFault, What};
pub use guest::{
    Guest, Item, Op, OpList, PageList, Script, ScriptList, Settings, SlotList, SlotRow, Why,
};
pub use hexed::hex_of;
pub use list::{Bytes, Listed, NumberList};
pub use memory::Memory;
pub use port::Port;
pub use rates::Throttle;
pub use space::{space_prefix, split_space};
pub use status::Status;
pub use step::Step;
pub use text::Text;
