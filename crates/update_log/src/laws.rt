// What holds of the bytes of all regions.
ghost use Rattle.std.specs.Prelude.{◌≡◌, ◌∷◌, [], ℕ, List};
ghost use Rattle.update_log.specs.Frames.{payloads, records, framed_length, taken_length, end_behind, behind_gate, header};
ghost use Rattle.update_log.specs.WipeStops.{generation, header_of};
ghost use Rattle.update_log.specs.Wipe.{seen_wiped};
ghost use Rattle.update_log.specs.declared.stage.Stage.TheVariants as stages;

use crate::format::{CLOSED, GENERATION_SIZE, HEADER, OPEN, REGION_SIZE};
use log_record::read_is_as_long;

/// The records of a content take as many bytes as their spellings have, each behind its gate and its length.
pub fn records_are_as_long()
    ensures { (content : List ℕ) → framed_length (payloads content) ≡ taken_length (records content) }
{
    read_is_as_long();
}

/// How long a region is, where its generation and its records stand, what opens and closes a gate, and what stands behind one.
pub fn region_has_its_numbers()
    ensures size { REGION_SIZE ≡ 262144 }
    ensures first_gate { HEADER ≡ 16 }
    ensures generation_size { GENERATION_SIZE ≡ 8 }
    ensures generation_read { generation (1 ∷ 2 ∷ 3 ∷ 4 ∷ 5 ∷ 6 ∷ 7 ∷ 8 ∷ 9 ∷ []) ≡ 578437695752307201 }
    ensures generation_named { header_of 578437695752307201 (9 ∷ 9 ∷ 9 ∷ 9 ∷ 9 ∷ 9 ∷ 9 ∷ 9 ∷ 0 ∷ 0 ∷ 0 ∷ 0 ∷ 0 ∷ 0 ∷ 0 ∷ 0 ∷ []) ≡ 1 ∷ 2 ∷ 3 ∷ 4 ∷ 5 ∷ 6 ∷ 7 ∷ 8 ∷ 0 ∷ 0 ∷ 0 ∷ 0 ∷ 0 ∷ 0 ∷ 0 ∷ 0 ∷ [] }
    ensures generation_written { seen_wiped stages.Naming 513 (9 ∷ 9 ∷ 9 ∷ 9 ∷ 9 ∷ 9 ∷ 9 ∷ 9 ∷ 0 ∷ 0 ∷ 0 ∷ 0 ∷ 0 ∷ 0 ∷ 0 ∷ 0 ∷ 0 ∷ 7 ∷ []) ≡ 1 ∷ 2 ∷ 0 ∷ 0 ∷ 0 ∷ 0 ∷ 0 ∷ 0 ∷ 0 ∷ 0 ∷ 0 ∷ 0 ∷ 0 ∷ 0 ∷ 0 ∷ 0 ∷ 0 ∷ 7 ∷ [] }
    ensures gate_closed { seen_wiped stages.Closing 513 (1 ∷ 2 ∷ 0 ∷ 0 ∷ 0 ∷ 0 ∷ 0 ∷ 0 ∷ 0 ∷ 0 ∷ 0 ∷ 0 ∷ 0 ∷ 0 ∷ 0 ∷ 0 ∷ 165 ∷ 7 ∷ []) ≡ 1 ∷ 2 ∷ 0 ∷ 0 ∷ 0 ∷ 0 ∷ 0 ∷ 0 ∷ 0 ∷ 0 ∷ 0 ∷ 0 ∷ 0 ∷ 0 ∷ 0 ∷ 0 ∷ 0 ∷ 7 ∷ [] }
    ensures open_byte { OPEN ≡ 165 }
    ensures closed_byte { CLOSED ≡ 0 }
    ensures first_end { end_behind [] ≡ 16 }
    ensures behind { behind_gate (7 ∷ 8 ∷ 9 ∷ []) ≡ 3 ∷ 0 ∷ 0 ∷ 0 ∷ 7 ∷ 8 ∷ 9 ∷ 0 ∷ [] }
    ensures shut_region { payloads (1 ∷ 0 ∷ 0 ∷ 0 ∷ 0 ∷ 0 ∷ 0 ∷ 0 ∷ 0 ∷ 0 ∷ 0 ∷ 0 ∷ 0 ∷ 0 ∷ 0 ∷ 0 ∷ 0 ∷ 10 ∷ 0 ∷ 0 ∷ 0 ∷ 2 ∷ 0 ∷ 0 ∷ 0 ∷ 1 ∷ 7 ∷ 3 ∷ 0 ∷ 0 ∷ 0 ∷ 0 ∷ []) ≡ [] }
    ensures open_region { payloads (1 ∷ 0 ∷ 0 ∷ 0 ∷ 0 ∷ 0 ∷ 0 ∷ 0 ∷ 0 ∷ 0 ∷ 0 ∷ 0 ∷ 0 ∷ 0 ∷ 0 ∷ 0 ∷ 165 ∷ 10 ∷ 0 ∷ 0 ∷ 0 ∷ 2 ∷ 0 ∷ 0 ∷ 0 ∷ 1 ∷ 7 ∷ 3 ∷ 0 ∷ 0 ∷ 0 ∷ 0 ∷ []) ≡ (2 ∷ 0 ∷ 0 ∷ 0 ∷ 1 ∷ 7 ∷ 3 ∷ 0 ∷ 0 ∷ 0 ∷ []) ∷ [] }
    ensures header_read { header (1 ∷ 2 ∷ 3 ∷ 4 ∷ 5 ∷ 6 ∷ 7 ∷ 8 ∷ 9 ∷ 10 ∷ 11 ∷ 12 ∷ 13 ∷ 14 ∷ 15 ∷ 16 ∷ 17 ∷ []) ≡ 1 ∷ 2 ∷ 3 ∷ 4 ∷ 5 ∷ 6 ∷ 7 ∷ 8 ∷ 9 ∷ 10 ∷ 11 ∷ 12 ∷ 13 ∷ 14 ∷ 15 ∷ 16 ∷ [] }
{}
