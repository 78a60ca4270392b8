//! The pages of a guest.

ghost use Rattle.std.specs.Prelude.{◌≡◌, ◌<◌, ◌^◌, IfSome};
ghost use Rattle.dr_types.specs.Pages.{page_of_frame, page_of_address, page_count};

use crate::rows::{frame_page, pages_in};
use dr_types::Guest;

/// How many pages the slots have together.
pub fn page_count(guest: &Guest) -> u32
    requires { page_count guest.now < 2 ^ 32 }
    ensures { result ≡ page_count guest.now }
{
    pages_in(guest.slots.as_slice())
}

/// The page of a guest frame of a space, where it lies in a slot.
pub fn page_of_frame(guest: &Guest, space: u32, frame: u64) -> Option<u32>
    requires { page_count guest.now < 2 ^ 32 }
    ensures is { result ≡ page_of_frame guest.now.slots space frame }
    ensures within { IfSome result (λ page. page < page_count guest.now) }
{
    frame_page(guest.slots.as_slice(), space, frame)
}

/// The page that an address of a space lies in, where it lies in a slot.
pub fn page_of_address(guest: &Guest, space: u32, address: u64) -> Option<u32>
    requires { page_count guest.now < 2 ^ 32 }
    ensures is { result ≡ page_of_address guest.now space address }
    ensures within { IfSome result (λ page. page < page_count guest.now) }
{
    page_of_frame(guest, space, address / 4096)
}
