//! Places and pages are inverse to each other, and where a frame lies its space is that of a slot.

ghost use Rattle.std.specs.Prelude.{◌≡◌, ◌<◌, ℕ, List, Some, true, All, is_some, slice_get};
ghost use Rattle.dr_types.specs.Pages.{page_of_frame};
ghost use Rattle.dr_types.specs.Validity.{FieldsDiffer};
ghost use Rattle.dr_types.specs.declared.guest.SlotRow.{SlotRow};
ghost use Rattle.dr_types.specs.declared.entry.Entry.{Entry};
ghost use Rattle.dr_slots.specs.Places.{all_pages, place_of, page_at_place};

/// A page's number is its place in the list of all pages.
pub fn place_is_in_all_pages()
    ensures { (rows : List SlotRow) (page : ℕ) →
        slice_get (all_pages rows) page ≡ place_of rows page }
{}

/// The page at a page's place is that page.
pub fn page_at_inverts_place()
    ensures { (rows : List SlotRow) (page : ℕ) (entry : Entry) → FieldsDiffer rows →
        place_of rows page ≡ Some entry →
        page_at_place rows entry.slot entry.offset ≡ Some page }
{}

/// The place of the page at a place is that place.
pub fn place_inverts_page_at()
    ensures { (rows : List SlotRow) (slot offset page : ℕ) →
        page_at_place rows slot offset ≡ Some page →
        place_of rows page ≡ Some (record { slot = slot; offset = offset }) }
{}

/// Where a frame of a space lies in a slot, a bound on the spaces of the slots holds for that
/// space.
pub fn mapped_space_is_of_a_slot()
    ensures { (rows : List SlotRow) (space frame bound : ℕ) → All (λ row. row.space < bound) rows →
        is_some (page_of_frame rows space frame) ≡ true → space < bound }
{}
