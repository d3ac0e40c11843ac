//! What holds of all records and bytes.

ghost use Rattle.std.specs.Prelude.{◌≡◌, List, ℕ, length, Some, ◌++◌};
ghost use Rattle.file_graph.specs.Graph.{Graph, touches, after_effects, AreApart};
ghost use Rattle.log_record.specs.declared.format.Record.{Record};
ghost use Rattle.log_record.specs.Grammar.{AreBytes, IsRecord, record_bytes, record_at, record_of};

/// What is written is read again, whatever follows it.
pub fn written_is_read()
    ensures front { (r : Record) (rest : List ℕ) → IsRecord r → record_at (record_bytes r ++ rest) ≡ Some (r, rest) }
    ensures whole { (r : Record) → IsRecord r → record_of (record_bytes r) ≡ Some r }
{}

/// What is read is spelled so.
pub fn read_is_spelled()
    ensures front { (bytes rest : List ℕ) (r : Record) → AreBytes bytes → record_at bytes ≡ Some (r, rest) → IsRecord r × (bytes ≡ record_bytes r ++ rest) }
    ensures whole { (bytes : List ℕ) (r : Record) → AreBytes bytes → record_of bytes ≡ Some r → IsRecord r × (bytes ≡ record_bytes r) }
{}

/// Two records whose spellings begin the same bytes are one record.
pub fn no_spelling_begins_another()
    ensures { (r s : Record) (x y : List ℕ) → IsRecord r → IsRecord s → record_bytes r ++ x ≡ record_bytes s ++ y → (r ≡ s) × (x ≡ y) }
{}

/// What is read as a record has the length of its spelling, also where it is no row of bytes.
pub fn read_is_as_long()
    ensures { (bytes : List ℕ) (r : Record) → record_of bytes ≡ Some r → length bytes ≡ length (record_bytes r) }
{}

/// Two records whose effects touch no common inode may change places, over every graph.
pub fn apart_records_commute()
    ensures { (g : Graph) (r s : Record) → AreApart (touches r.effects) (touches s.effects) → after_effects (after_effects g r.effects) s.effects ≡ after_effects (after_effects g s.effects) r.effects }
{}
