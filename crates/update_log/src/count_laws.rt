// What counts of a client's two regions, and what a wipe, an append and a digest make of it.
ghost use Rattle.std.specs.Prelude.{◌≡◌, ◌≢◌, ◌⊎◌, ◌≤◌, ◌<◌, ◌+◌, ◌%◌, ◌^◌, ℕ, List, [], length, drop, Option};
ghost use Rattle.log_record.specs.declared.format.Record.{Record};
ghost use Rattle.update_log.specs.RecordCounts.{counted_records, next_generation, records_in, records_under, with_region};
ghost use Rattle.update_log.specs.Frames.{header, with_record, records};
ghost use Rattle.update_log.specs.View.{WithOrWithout};
ghost use Rattle.update_log.specs.WipeStops.{LeftInWipe, generation};

/// A region that names another generation has no record that counts, at no moment of its wipe: whatever a stop leaves of it, what
/// counts of both regions under the mark stays.
pub fn wipe_counts_nothing()
    ensures other { (g : ℕ) (content : List ℕ) → generation content ≢ g → records_under g content ≡ [] }
    ensures wiped { (g : ℕ) (head content : List ℕ) (behind : List Record) → LeftInWipe head behind content → generation head ≢ g → records_under g content ≡ [] }
    ensures both { (g done r : ℕ) (regions : ℕ → List ℕ) (content : List ℕ) (behind : List Record) → LeftInWipe (header (regions r)) behind content
        → generation (regions r) ≢ g → generation (regions r) ≢ next_generation g → counted_records g done (with_region regions r content) ≡ counted_records g done regions }
{}

/// While a record is appended to the region of the next generation, or to that of the mark's where the next one has none, what counts
/// is what counted before, with the begun record at its end or without.
pub fn append_counts_one_more()
    ensures next { (g done : ℕ) (regions : ℕ → List ℕ) (content : List ℕ) (begun : Option Record) → g < 2 ^ 64 → generation (regions (next_generation g % 2)) ≡ next_generation g
        → WithOrWithout (header (regions (next_generation g % 2))) (records (regions (next_generation g % 2))) begun content
        → (counted_records g done (with_region regions (next_generation g % 2) content) ≡ counted_records g done regions)
        ⊎ (counted_records g done (with_region regions (next_generation g % 2) content) ≡ with_record (counted_records g done regions) begun) }
    ensures own { (g done : ℕ) (regions : ℕ → List ℕ) (content : List ℕ) (begun : Option Record) → g < 2 ^ 64 → generation (regions (g % 2)) ≡ g
        → done ≤ length (records (regions (g % 2))) → records_in regions (next_generation g) ≡ []
        → WithOrWithout (header (regions (g % 2))) (records (regions (g % 2))) begun content
        → (counted_records g done (with_region regions (g % 2) content) ≡ counted_records g done regions)
        ⊎ (counted_records g done (with_region regions (g % 2) content) ≡ with_record (counted_records g done regions) begun) }
{}

/// A mark that moves within its generation takes the digested records away from what counts; one that moves on from a generation
/// all of whose records are done takes none, where no region names the generation after the next yet.
pub fn digest_counts_fewer()
    ensures within { (g done n : ℕ) (regions : ℕ → List ℕ) → done + n ≤ length (records_in regions g) → counted_records g (done + n) regions ≡ drop n (counted_records g done regions) }
    ensures finished { (g done : ℕ) (regions : ℕ → List ℕ) → length (records_in regions g) ≤ done → records_in regions (next_generation (next_generation g)) ≡ []
        → counted_records (next_generation g) 0 regions ≡ counted_records g done regions }
{}
