//! The bytes of a guest's pages. A page takes memory of its own when it is first written.
#![tactic(auto)]

mod own_page;
mod page_bytes;
mod store;
#[cfg(test)]
mod tests;

pub use page_bytes::PageBytes;
pub use store::PageStore;
