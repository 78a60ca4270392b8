ghost use Rattle.std.specs.Prelude.{◌≡◌, Ok};
ghost use Rattle.dr_types.specs.declared.guest.Guest.{Guest};
ghost use Rattle.dr_types.specs.Validity.{IsValid};
ghost use Rattle.dr_types.specs.GuestText.{guest_text};
ghost use Rattle.dr_guestfile.specs.GuestTexts.{guest_of};

/// The canonical text of a valid guest says that guest.
pub fn written_is_read()
    ensures { (guest : Guest) → IsValid guest → guest_of (guest_text guest) ≡ Ok guest }
{}
