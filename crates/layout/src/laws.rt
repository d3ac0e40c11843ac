//! What holds of all values and bytes.

ghost use Rattle.std.specs.Prelude.{◌≡◌, List, ℕ, Some, true};
ghost use Rattle.layout.specs.declared.superblock.Super.{Super};
ghost use Rattle.layout.specs.Bytes.{AreBytes};
ghost use Rattle.layout.specs.declared.marks.Marks.{Marks};
ghost use Rattle.layout.specs.Marks.{fits_marks, marks_spelling, marks_of};
ghost use Rattle.layout.specs.declared.slot.Slot.{Slot};
ghost use Rattle.layout.specs.Places.{Sizes, IsAllowed};
ghost use Rattle.layout.specs.Slot.{fits_slot, slot_spelling, slot_of};
ghost use Rattle.layout.specs.declared.geometry.Space.{Space};
ghost use Rattle.layout.specs.Extents.{ExtentList, fits_extents, extents_spelling, extents_of};
ghost use Rattle.layout.specs.Directory.{EntryList, fits_entries, entries_spelling, entry_list_of};
ghost use Rattle.layout.specs.Super.{fits_super, super_spelling, super_of};

/// A superblock that is written is read again.
pub fn super_is_read()
    ensures { (s : Super) → fits_super s ≡ true → super_of (super_spelling s) ≡ Some s }
{}

/// A superblock that is read is spelled so.
pub fn super_is_spelled()
    ensures { (block : List ℕ) (s : Super) → AreBytes block → super_of block ≡ Some s → (fits_super s ≡ true) × (block ≡ super_spelling s) }
{}

/// Marks that are written are read again.
pub fn marks_are_read()
    ensures { (m : Marks) → fits_marks m ≡ true → marks_of (marks_spelling m) ≡ Some m }
{}

/// Marks that are read are spelled so.
pub fn marks_are_spelled()
    ensures { (block : List ℕ) (m : Marks) → AreBytes block → marks_of block ≡ Some m → (fits_marks m ≡ true) × (block ≡ marks_spelling m) }
{}

/// A slot that is written is read again.
pub fn slot_is_read()
    ensures { (g : Sizes) (s : Slot) → IsAllowed g → fits_slot g s ≡ true → slot_of g (slot_spelling s) ≡ Some s }
{}

/// A slot that is read is spelled so.
pub fn slot_is_spelled()
    ensures { (g : Sizes) (bytes : List ℕ) (s : Slot) → AreBytes bytes → slot_of g bytes ≡ Some s → (fits_slot g s ≡ true) × (bytes ≡ slot_spelling s) }
{}

/// Extents that are written are read again.
pub fn extents_are_read()
    ensures { (g : Sizes) (space : Space) (v : ExtentList) → IsAllowed g → fits_extents g space v ≡ true → extents_of g space (extents_spelling v) ≡ Some v }
{}

/// Extents that are read are spelled so.
pub fn extents_are_spelled()
    ensures { (g : Sizes) (space : Space) (block : List ℕ) (v : ExtentList) → IsAllowed g → AreBytes block → extents_of g space block ≡ Some v → (fits_extents g space v ≡ true) × (block ≡ extents_spelling v) }
{}

/// Entries that are written are read again.
pub fn entries_are_read()
    ensures { (v : EntryList) → fits_entries v ≡ true → entry_list_of (entries_spelling v) ≡ Some v }
{}

/// Entries that are read are spelled so.
pub fn entries_are_spelled()
    ensures { (block : List ℕ) (v : EntryList) → AreBytes block → entry_list_of block ≡ Some v → (fits_entries v ≡ true) × (block ≡ entries_spelling v) }
{}
