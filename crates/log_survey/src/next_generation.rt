// Under which generation a client goes on after a recovery.
ghost use Rattle.std.specs.Prelude.{◌≡◌, ◌≢◌, ◌%◌, ◌<◌, ℕ, List, [], ◌∷◌, Some, find, slice_index};
ghost use Rattle.update_log.specs.RecordCounts.{counted_records, next_generation};
ghost use Rattle.log_survey.specs.Regions.{AreStale, HeadersName};
ghost use Rattle.log_survey.specs.Generations.{IsNear, is_free, later};

/// The generation under which a client goes on after a recovery: the first of the second, the fourth and the sixth after its mark's
/// that is free, which is that no header of its two regions names it or the one after it. One of the three is always free.
///
/// Generations count modulo 2^64. However often a recovery is cut off before it has wiped the regions, no record of theirs counts
/// under the new mark, and a wipe of either changes nothing that counts (`wipe_counts_nothing`, which asks for `stale`).
pub fn next_free_generation(generation: u64, names: [u64; 2]) -> u64
    ensures first_free { find (is_free names) (later 2 generation ∷ later 4 generation ∷ later 6 generation ∷ []) ≡ Some result }

    ensures no_name { (r : ℕ) → r < 2 → (slice_index names r ≢ result) × (slice_index names r ≢ next_generation result) }
    ensures counts_nothing { (regions : ℕ → List ℕ) → HeadersName regions names → counted_records result 0 regions ≡ [] }
    ensures stale { (regions : ℕ → List ℕ) → HeadersName regions names → AreStale regions result }
    ensures same_parity { result % 2 ≡ generation % 2 }

    // Where each header names one of the two generations before the mark's, the mark's or the next, it is the second after it.
    ensures second { ((r : ℕ) → r < 2 → IsNear generation (slice_index names r)) → result ≡ later 2 generation }
{
    first_free(generation, names)
}

// The first of three generations, two apart, that is free.
fn first_free(generation: u64, names: [u64; 2]) -> u64
    ensures first { find (is_free names) (later 2 generation ∷ later 4 generation ∷ later 6 generation ∷ []) ≡ Some result }
    ensures same_parity { result % 2 ≡ generation % 2 }
{
    let second = generation.wrapping_add(2);
    if is_free(second, names) {
        return second;
    }
    let fourth = generation.wrapping_add(4);
    if is_free(fourth, names) {
        return fourth;
    }
    generation.wrapping_add(6)
}

// Whether no header names a generation or the one after it.
fn is_free(generation: u64, names: [u64; 2]) -> bool
    ensures { result ≡ is_free names generation }
{
    let next = generation.wrapping_add(1);
    names
        .iter()
        .all(|name| *name != generation && *name != next)
}
