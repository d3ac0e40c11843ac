//! What holds of every batch.

ghost use Rattle.std.specs.Prelude.{◌≡◌, ◌≢◌, ◌<◌, ℕ, List, Option, Some, true};
ghost use Rattle.std.specs.List.{Contains};
ghost use Rattle.posix_calls.specs.declared.limits.TheConstants.{MAX_INODE};
ghost use Rattle.tier_device.specs.declared.media.Tier.{Tier};
ghost use Rattle.tier_device.specs.declared.media.Tier.TheVariants.{Fast};
ghost use Rattle.area_reader.specs.layout.declared.places.TheConstants.{MARKS_BLOCK};
ghost use Rattle.area_reader.specs.layout.declared.marks.Marks.{Marks};
ghost use Rattle.area_reader.specs.layout.Marks.{fits_marks};
ghost use Rattle.area_reader.specs.layout.Places.{Sizes, IsAllowed};
ghost use Rattle.area_reader.specs.layout.Slot.{fits_slot};
ghost use Rattle.area_reader.specs.batch_journal.Blocks.{home, after_batch};
ghost use Rattle.area_reader.specs.Store.{Store, slot_read, marks};
ghost use Rattle.area_commit.specs.declared.slots.ChangedSlot.{ChangedSlot};
ghost use Rattle.area_commit.specs.Slots.{RiseIn};
ghost use Rattle.area_commit.specs.Batches.{IsBatchOf, IsPutIn};

use area_reader::in_layout::{marks_are_read, slot_is_read};

/// After a batch the slots, the marks and the node blocks are put into the store. It was made for a store with the same slot blocks, in which data may have been other.
pub fn batch_is_put()
    ensures { (s old new : Store) (c : List ℕ) (slots : List ChangedSlot) (m : Option Marks) (nodes batch : List (ℕ × List ℕ))
        → IsBatchOf s slots m nodes batch → RiseIn 1 MAX_INODE slots → ((k : ℕ) → k < MARKS_BLOCK → old Fast k ≡ s Fast k) → old Fast ≡ home c
        → new Fast ≡ after_batch batch (old Fast) → ((t : Tier) → t ≢ Fast → new t ≡ old t) → IsPutIn slots m nodes old new }
{}

/// Slots and marks that are put are read again, if they keep the limits.
pub fn put_slots_are_read()
    ensures slots { (g : Sizes) (old new : Store) (slots : List ChangedSlot) (m : Option Marks) (nodes : List (ℕ × List ℕ)) (x : ChangedSlot)
        → IsAllowed g → IsPutIn slots m nodes old new → RiseIn 1 MAX_INODE slots → Contains slots x → fits_slot g x.slot ≡ true → slot_read g new x.inode ≡ Some x.slot }
    ensures marks { (old new : Store) (slots : List ChangedSlot) (m : Marks) (nodes : List (ℕ × List ℕ)) → IsPutIn slots (Some m) nodes old new → fits_marks m ≡ true → marks new ≡ Some m }
{
    slot_is_read();
    marks_are_read();
}
