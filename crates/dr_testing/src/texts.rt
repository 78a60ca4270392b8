ghost use Rattle.std.specs.Prelude.{◌≡◌, ◌≢◌, Err, true, IsTrue};
ghost use Rattle.dr_types.specs.declared.fault.FileFault.TheVariants as file_fault;
ghost use Rattle.dr_guestfile.specs.GuestTexts.{guest_of};
ghost use Rattle.dr_testing.specs.Rows.{Says};

use dr_guestfile::{read_guest, write_guest};
use dr_types::FileFault;
use std::alloc::Global;

/// The text is refused with this fault.
pub fn is_refused(alloc: Global, text: &str, fault: FileFault) -> bool
    ensures { IsTrue result → fault ≢ file_fault.Memory → guest_of text.now ≡ Err fault }
{
    match read_guest(alloc, text.as_bytes()) {
        Ok(_) => false,
        Err(why) => why == fault,
    }
}

/// The text says a guest, whose canonical text is this. `false` also where memory is refused.
pub fn says(alloc: Global, text: &str, canonical: &str) -> bool
    ensures { IsTrue result → Says text.now canonical.now }
{
    let guest = match read_guest(alloc, text.as_bytes()) {
        Ok(guest) => guest,
        Err(_) => return false,
    };
    match write_guest(alloc, &guest) {
        Ok(written) => written.as_str() == canonical,
        Err(_) => false,
    }
}

/// The text says a guest, and is its canonical text. `false` also where memory is refused.
pub fn stays(alloc: Global, text: &str) -> bool
    ensures { IsTrue result → Says text.now text.now }
{
    says(alloc, text, text)
}
