// Which records of a client's two regions count.
ghost use Rattle.std.specs.Prelude.{◌≡◌, ◌≢◌, ◌%◌, ℕ, List, drop, length, min, slice_index, IfSome, IfNone};
ghost use Rattle.update_log.specs.RecordCounts.{counted_records, next_generation, records_in};
ghost use Rattle.log_survey.specs.Regions.{AreRead, records_behind, records_of, records_that_count};

/// The records of a region from one of them on.
#[derive(Clone, Copy, Debug, PartialEq, Eq)]
pub struct LogRest {
    /// The region, 0 or 1.
    pub region: usize,
    /// How many of its records are passed over.
    pub from: usize,
}

/// Which records of a client's two regions count, in their order: those of `first`, then all of the region `second`.
#[derive(Clone, Copy, Debug, PartialEq, Eq)]
pub struct CountedLogs {
    /// The records of the mark's generation that are not done, if a region has that generation.
    pub first: Option<LogRest>,
    /// The region of the next generation, if a region has it.
    pub second: Option<usize>,
}

/// Which records of a client's two regions count under its mark, and in which order.
///
/// The mark is a generation and how many of its records are done. Of each region the caller knows the generation that its header names, and how
/// many records it has. A region whose header names another generation than its turn is not in the answer; where more records are
/// done than there are, none is left.
pub fn logs_that_count(
    generation: u64,
    done: u32,
    names: [u64; 2],
    lengths: [usize; 2],
) -> CountedLogs
    ensures records { (regions : ℕ → List ℕ) → AreRead regions names lengths → counted_records generation done regions ≡ records_that_count regions result }

    // The mark's generation stands in the region of its parity, or in none.
    ensures first { IfSome result.first (λ rest. (rest.region ≡ generation % 2) × (slice_index names rest.region ≡ generation)) }
    ensures from { IfSome result.first (λ rest. rest.from ≡ min done (slice_index lengths rest.region)) }
    ensures no_first { IfNone result.first (slice_index names (generation % 2) ≢ generation) }

    // So does the next generation.
    ensures second { IfSome result.second (λ region. (region ≡ next_generation generation % 2) × (slice_index names region ≡ next_generation generation)) }
    ensures no_second { IfNone result.second (slice_index names (next_generation generation % 2) ≢ next_generation generation) }
{
    CountedLogs {
        first: rest_of(generation, done, names, lengths),
        second: region_of(generation.wrapping_add(1), names),
    }
}

// The records of a generation behind the ones done.
fn rest_of(generation: u64, done: u32, names: [u64; 2], lengths: [usize; 2]) -> Option<LogRest>
    ensures records { (regions : ℕ → List ℕ) → AreRead regions names lengths → drop done (records_in regions generation) ≡ records_behind regions result }
    ensures region { IfSome result (λ rest. (rest.region ≡ generation % 2) × (slice_index names rest.region ≡ generation)) }
    ensures from { IfSome result (λ rest. rest.from ≡ min done (slice_index lengths rest.region)) }
    ensures none { IfNone result (slice_index names (generation % 2) ≢ generation) }
{
    let region = region_of(generation, names)?;
    let from = (done as usize).min(lengths[region]);
    Some(LogRest { region, from })
}

// The region that has a generation: the one of its parity, if its header names it.
fn region_of(generation: u64, names: [u64; 2]) -> Option<usize>
    ensures records { (regions : ℕ → List ℕ) (lengths : List ℕ) → AreRead regions names lengths → records_in regions generation ≡ records_of regions result }
    ensures region { IfSome result (λ region. (region ≡ generation % 2) × (slice_index names region ≡ generation)) }
    ensures none { IfNone result (slice_index names (generation % 2) ≢ generation) }
{
    let region = (generation % 2) as usize;
    if names[region] == generation {
        Some(region)
    } else {
        None
    }
}
