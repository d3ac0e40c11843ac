//! The numbers of the journal, each told once as a number.

ghost use Rattle.std.specs.Prelude.{◌≡◌, ◌∷◌, [], List, ℕ, true, false};
ghost use Rattle.batch_journal.specs.Images.{slice, image_count, target_at, image_at};
ghost use Rattle.batch_journal.specs.Blocks.{gate_of, area_of, is_gate_open, is_home};

use crate::replay::{CLOSED, END, GATE, HEAD, OPEN};
use layout::MAX_IMAGES;

/// Where gate, head and images stand, and what opens and closes the gate.
pub fn journal_has_its_numbers()
    ensures gate { GATE ≡ 139264 }
    ensures head { HEAD ≡ 143360 }
    ensures end { END ≡ 1196032 }
    ensures open_byte { OPEN ≡ 165 }
    ensures closed_byte { CLOSED ≡ 0 }
    ensures most_images { MAX_IMAGES ≡ 256 }
    ensures gate_read { (c : List ℕ) → gate_of c ≡ slice 139264 1 c }
    ensures area_read { (c : List ℕ) → area_of c ≡ slice 143360 1052672 c }
    ensures opened { (c : List ℕ) → gate_of c ≡ 165 ∷ [] → is_gate_open c ≡ true }
    ensures shut { (c : List ℕ) → gate_of c ≡ 0 ∷ [] → is_gate_open c ≡ false }
    ensures last_home_before { is_home 33 ≡ true }
    ensures first_own { is_home 34 ≡ false }
    ensures last_own { is_home 291 ≡ false }
    ensures first_node { is_home 292 ≡ true }
    ensures count { image_count (2 ∷ 0 ∷ 0 ∷ 0 ∷ 1 ∷ 0 ∷ 0 ∷ 0 ∷ 44 ∷ 1 ∷ 0 ∷ 0 ∷ []) ≡ 2 }
    ensures first_number { target_at (2 ∷ 0 ∷ 0 ∷ 0 ∷ 1 ∷ 0 ∷ 0 ∷ 0 ∷ 44 ∷ 1 ∷ 0 ∷ 0 ∷ []) 0 ≡ 1 }
    ensures second_number { target_at (2 ∷ 0 ∷ 0 ∷ 0 ∷ 1 ∷ 0 ∷ 0 ∷ 0 ∷ 44 ∷ 1 ∷ 0 ∷ 0 ∷ []) 1 ≡ 300 }
    ensures second_image { (bytes : List ℕ) → image_at bytes 1 ≡ slice 8192 4096 bytes }
{}
