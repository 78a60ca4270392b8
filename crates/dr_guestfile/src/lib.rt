//! The guest file: what a text says of a guest, and its first fault where it says none. The
//! canonical text of a guest is handed on.
#![tactic(auto)]

mod faults;
mod keyword;
mod law;
mod ops;
mod reading;
mod scripts;
mod settings;
mod slot_lines;

pub use dr_guestfile_text::write_guest;
pub use faults::named_line;
pub use keyword::{KEYWORDS, Keyword};
pub use law::read_is_valid;
pub use reading::read_guest;
pub use settings::is_ring_size;
pub use slot_lines::FRAMES_END;
