ghost use Rattle.std.specs.Prelude.{◌≡◌, ℕ, List, Ok};
ghost use Rattle.dr_types.specs.declared.guest.Guest.{Guest};
ghost use Rattle.dr_types.specs.Validity.{IsValid};
ghost use Rattle.dr_guestfile.specs.GuestTexts.{guest_of};

/// A guest that a text says is valid.
pub fn read_is_valid()
    ensures { (text : List ℕ) (guest : Guest) → guest_of text ≡ Ok guest → IsValid guest }
{}
