//! The numbers of a record's bytes, each stated once as a number.

ghost use Rattle.std.specs.Prelude.{◌≡◌, ◌+◌, ◌∷◌, [], true, false};
ghost use Rattle.file_graph.specs.declared.effect.Kind.TheVariants as kind;
ghost use Rattle.file_graph.specs.declared.effect.Effect.TheVariants as effect;
ghost use Rattle.posix_calls.specs.declared.limits.TheConstants.{MAX_NAME, MAX_TRANSFER, MAX_FILE, MAX_NAMES, MAX_INODE};
ghost use Rattle.log_record.specs.Grammar.{effect_bytes, record_bytes, fits};

use crate::format::MAX_EFFECTS;

/// Each effect with its tag and its fields, the kinds, and the limits.
pub fn record_has_its_numbers()
    ensures make_a_file { effect_bytes (effect.Make 2 kind.File) ≡ 1 ∷ 2 ∷ 0 ∷ 0 ∷ 0 ∷ 1 ∷ [] }
    ensures make_a_directory { effect_bytes (effect.Make 2 kind.Directory) ≡ 1 ∷ 2 ∷ 0 ∷ 0 ∷ 0 ∷ 2 ∷ [] }
    ensures enter { effect_bytes (effect.Enter 1 2 kind.Directory (97 ∷ [])) ≡ 2 ∷ 1 ∷ 0 ∷ 0 ∷ 0 ∷ 2 ∷ 0 ∷ 0 ∷ 0 ∷ 2 ∷ 1 ∷ 97 ∷ [] }
    ensures leave { effect_bytes (effect.Leave 1 (98 ∷ 99 ∷ [])) ≡ 3 ∷ 1 ∷ 0 ∷ 0 ∷ 0 ∷ 2 ∷ 98 ∷ 99 ∷ [] }
    ensures names { effect_bytes (effect.Names 2 300) ≡ 4 ∷ 2 ∷ 0 ∷ 0 ∷ 0 ∷ 44 ∷ 1 ∷ 0 ∷ 0 ∷ [] }
    ensures size { effect_bytes (effect.Size 2 258) ≡ 5 ∷ 2 ∷ 0 ∷ 0 ∷ 0 ∷ 2 ∷ 1 ∷ 0 ∷ 0 ∷ 0 ∷ 0 ∷ 0 ∷ 0 ∷ [] }
    ensures bytes { effect_bytes (effect.Bytes 2 258 (120 ∷ 121 ∷ [])) ≡ 6 ∷ 2 ∷ 0 ∷ 0 ∷ 0 ∷ 2 ∷ 1 ∷ 0 ∷ 0 ∷ 0 ∷ 0 ∷ 0 ∷ 0 ∷ 2 ∷ 0 ∷ 0 ∷ 0 ∷ 120 ∷ 121 ∷ [] }
    ensures drop { effect_bytes (effect.Drop 3) ≡ 7 ∷ 3 ∷ 0 ∷ 0 ∷ 0 ∷ [] }
    ensures swap { effect_bytes (effect.Swap 1 (97 ∷ []) 2 (98 ∷ 99 ∷ [])) ≡ 8 ∷ 1 ∷ 0 ∷ 0 ∷ 0 ∷ 1 ∷ 97 ∷ 2 ∷ 0 ∷ 0 ∷ 0 ∷ 2 ∷ 98 ∷ 99 ∷ [] }
    ensures record_of_a_swap { record_bytes (record { units = 0; effects = effect.Swap 1 (97 ∷ []) 1 (98 ∷ []) ∷ [] }) ≡ 0 ∷ 0 ∷ 0 ∷ 0 ∷ 1 ∷ 8 ∷ 1 ∷ 0 ∷ 0 ∷ 0 ∷ 1 ∷ 97 ∷ 1 ∷ 0 ∷ 0 ∷ 0 ∷ 1 ∷ 98 ∷ [] }
    ensures record_of_two { record_bytes (record { units = 256; effects = effect.Names 2 0 ∷ effect.Drop 3 ∷ [] }) ≡ 0 ∷ 1 ∷ 0 ∷ 0 ∷ 2 ∷ 4 ∷ 2 ∷ 0 ∷ 0 ∷ 0 ∷ 0 ∷ 0 ∷ 0 ∷ 0 ∷ 7 ∷ 3 ∷ 0 ∷ 0 ∷ 0 ∷ [] }
    ensures most_effects { MAX_EFFECTS ≡ 8 }
    ensures last_inode { MAX_INODE ≡ 1024 }
    ensures most_names { MAX_NAMES ≡ 1000 }
    ensures longest_name { MAX_NAME ≡ 64 }
    ensures longest_write { MAX_TRANSFER ≡ 65536 }
    ensures greatest_file { (fits (effect.Size 2 MAX_FILE) ≡ true) × (fits (effect.Size 2 (MAX_FILE + 1)) ≡ false) }
{}
