// Data goes to free blocks.
ghost use Rattle.std.specs.Prelude.{◌≡◌, ◌≢◌, ◌≤◌, ◌<◌, ◌+◌, ◌*◌, ◌^◌, ◌⊎◌, ℕ, List, [], ◌∷◌, true, false, length, Err, OnOk, OnErr, IfErr};
ghost use Rattle.std.specs.List.{flat_map};
ghost use Rattle.tier_device.specs.declared.media.Tier.{Tier};
ghost use Rattle.tier_device.specs.declared.media.Tier.TheVariants.{Fast, Block, Slow};
ghost use Rattle.tier_device.specs.Media.{Rose};
ghost use Rattle.tier_device.specs.AfterStop.{AtRest};
ghost use Rattle.area_reader.specs.layout.Places.{tier_blocks, data_first};
ghost use Rattle.block_alloc.specs.Runs.{run_blocks, blocks_of, AreNormalRuns};
ghost use Rattle.area_reader.specs.batch_journal.Blocks.{block_of};
ghost use Rattle.area_reader.specs.batch_journal.Course.{SameLengths};
ghost use Rattle.area_reader.specs.batch_journal.declared.error.JournalError.TheVariants.{DeviceFault};
ghost use Rattle.area_reader.specs.Reads.{Loose};
ghost use Rattle.area_reader.specs.Store.{Store, disk};
ghost use Rattle.area_commit.specs.Allocations.{tier_places, runs_of, taken_data};
ghost use Rattle.area_commit.specs.DataWrite.{AreFreeIn, StaysLoose, Went, KeepsRest, RestsBut, part_in, HoldParts, HoldData, IsLooseLeft, RunsAreNormal, fences_of, tier_calls, calls_for, WritesIn, FencesInTurn, GoesInTurn, TakenInTurn};

use crate::allocation::Allocation;
use area_reader::in_batch_journal::{Journal, JournalError};
use block_alloc::Run;
use tier_device::{Media, Tier};

// Writes a run of data blocks in one device call.
fn write_run<M: Media>(
    journal: &mut Journal<M>,
    tier: Tier,
    run: Run,
    bytes: &[u8],
) -> Result<(), JournalError>
    requires going { journal.old.failed ≡ false }
    requires first { data_first journal.old.geometry tier ≤ run.first }
    requires last { run.first + run.count ≤ tier_blocks journal.old.geometry tier }
    requires size { length bytes.now ≡ 4096 * run.count }
    ensures loose { (s : Store) → AreFreeIn journal.old.geometry s tier (run ∷ []) → StaysLoose journal.old.geometry s (M.moment journal.old.media) (M.moment journal.new.media) (M.left journal.old.media) (M.left journal.new.media) }
    ensures written { OnOk result (flat_map (block_of (M.seen journal.new.media tier)) (run_blocks run) ≡ bytes.now) }
    ensures kept { OnOk result ((k : ℕ) → (k < run.first) ⊎ (run.first + run.count ≤ k) → block_of (M.seen journal.new.media tier) k ≡ block_of (M.seen journal.old.media tier) k) }
    ensures others { OnOk result ((t : Tier) → t ≢ tier → M.seen journal.new.media t ≡ M.seen journal.old.media t) }
    ensures keeps_rest { OnOk result (RestsBut (λ t. t ≢ tier) (M.seen journal.old.media) (M.seen journal.new.media) (M.left journal.old.media (M.moment journal.old.media)) (M.left journal.new.media (M.moment journal.new.media))) }
    ensures calls { OnOk result (M.moment journal.new.media ≡ M.moment journal.old.media + 1) }
    ensures at_most { M.moment journal.new.media ≤ M.moment journal.old.media + 1 }
    ensures turn { WritesIn tier (M.moment journal.old.media) (M.moment journal.new.media) (M.left journal.old.media) (M.left journal.new.media) }
    ensures went { Went M.Media journal.old journal.new result }
    ensures lengths { SameLengths (M.seen journal.old.media) (M.seen journal.new.media) }
{
    // For the proof: each tier is as long as its sizes say.
    journal.left_now();
    journal.write(tier, run.first, bytes)
}

// Writes data to runs of a tier, to each as much as it has room for: one device call for each run.
fn write_runs<M: Media>(
    journal: &mut Journal<M>,
    tier: Tier,
    runs: &[Run],
    data: &[u8],
) -> Result<(), JournalError>
    requires going { journal.old.failed ≡ false }
    requires place { AreNormalRuns (data_first journal.old.geometry tier) (tier_blocks journal.old.geometry tier) runs.now }
    requires size { length «data».now ≡ 4096 * length (blocks_of runs.now) }
    ensures loose { (s : Store) → AreFreeIn journal.old.geometry s tier runs.now → StaysLoose journal.old.geometry s (M.moment journal.old.media) (M.moment journal.new.media) (M.left journal.old.media) (M.left journal.new.media) }
    ensures written { OnOk result (flat_map (block_of (M.seen journal.new.media tier)) (blocks_of runs.now) ≡ «data».now) }
    ensures others { OnOk result ((t : Tier) → t ≢ tier → M.seen journal.new.media t ≡ M.seen journal.old.media t) }
    ensures keeps_rest { OnOk result (RestsBut (λ t. t ≡ tier → length runs.now ≡ 0) (M.seen journal.old.media) (M.seen journal.new.media) (M.left journal.old.media (M.moment journal.old.media)) (M.left journal.new.media (M.moment journal.new.media))) }
    ensures calls { OnOk result (M.moment journal.new.media ≡ M.moment journal.old.media + length runs.now) }
    ensures at_most { M.moment journal.new.media ≤ M.moment journal.old.media + length runs.now }
    ensures turn { WritesIn tier (M.moment journal.old.media) (M.moment journal.new.media) (M.left journal.old.media) (M.left journal.new.media) }
    ensures went { Went M.Media journal.old journal.new result }
    ensures lengths { SameLengths (M.seen journal.old.media) (M.seen journal.new.media) }
{
    let mut at = 0;
    'runs: for place in 0..runs.len() {
        let run = runs[place];
        let end = at + 4096 * run.count as usize;
        write_run(journal, tier, run, &data[at..end])?;
        at = end;
    }
    Ok(())
}

// Fences a tier where something was written to it.
fn fence_runs<M: Media>(
    journal: &mut Journal<M>,
    tier: Tier,
    runs: &[Run],
) -> Result<(), JournalError>
    requires going { journal.old.failed ≡ false }
    ensures loose { (s : Store) → StaysLoose journal.old.geometry s (M.moment journal.old.media) (M.moment journal.new.media) (M.left journal.old.media) (M.left journal.new.media) }
    ensures rests { OnOk result (0 < length runs.now → AtRest (M.seen journal.new.media) (M.left journal.new.media (M.moment journal.new.media)) tier) }
    ensures keeps_rest { OnOk result (KeepsRest (M.seen journal.old.media) (M.seen journal.new.media) (M.left journal.old.media (M.moment journal.old.media)) (M.left journal.new.media (M.moment journal.new.media))) }
    ensures seen { OnOk result ((t : Tier) → M.seen journal.new.media t ≡ M.seen journal.old.media t) }
    ensures calls { OnOk result (M.moment journal.new.media ≡ M.moment journal.old.media + fences_of runs.now) }
    ensures at_most { M.moment journal.new.media ≤ M.moment journal.old.media + fences_of runs.now }
    ensures turn { WritesIn tier (M.moment journal.old.media) (M.moment journal.new.media) (M.left journal.old.media) (M.left journal.new.media) }
    ensures went { Went M.Media journal.old journal.new result }
    ensures lengths { SameLengths (M.seen journal.old.media) (M.seen journal.new.media) }
{
    if runs.is_empty() {
        return Ok(());
    }
    journal.fence(tier)
}

// How many bytes the runs have room for.
fn bytes_of(runs: &[Run]) -> usize
    requires { 4096 * length (blocks_of runs.now) < 2 ^ 64 }
    ensures { result ≡ 4096 * length (blocks_of runs.now) }
{
    let mut bytes = 0;
    'runs: for place in 0..runs.len() {
        bytes += 4096 * runs[place].count as usize;
    }
    bytes
}

// Writes data to runs of three tiers, fastest first.
fn write_all<M: Media>(
    journal: &mut Journal<M>,
    fast: &[Run],
    block: &[Run],
    slow: &[Run],
    data: &[u8],
) -> Result<(), JournalError>
    requires going { journal.old.failed ≡ false }
    requires fast { AreNormalRuns (data_first journal.old.geometry Fast) (tier_blocks journal.old.geometry Fast) fast.now }
    requires block { AreNormalRuns (data_first journal.old.geometry Block) (tier_blocks journal.old.geometry Block) block.now }
    requires slow { AreNormalRuns (data_first journal.old.geometry Slow) (tier_blocks journal.old.geometry Slow) slow.now }
    requires size { length «data».now ≡ 4096 * length (blocks_of fast.now) + 4096 * length (blocks_of block.now) + 4096 * length (blocks_of slow.now) }
    ensures loose { (s : Store) → AreFreeIn journal.old.geometry s Fast fast.now → AreFreeIn journal.old.geometry s Block block.now → AreFreeIn journal.old.geometry s Slow slow.now → StaysLoose journal.old.geometry s (M.moment journal.old.media) (M.moment journal.new.media) (M.left journal.old.media) (M.left journal.new.media) }
    ensures written { OnOk result (HoldParts (M.seen journal.new.media) fast.now block.now slow.now «data».now) }
    ensures keeps_rest { OnOk result (RestsBut (λ t. length (part_in fast.now block.now slow.now t) ≡ 0) (M.seen journal.old.media) (M.seen journal.new.media) (M.left journal.old.media (M.moment journal.old.media)) (M.left journal.new.media (M.moment journal.new.media))) }
    ensures calls { OnOk result (M.moment journal.new.media ≡ M.moment journal.old.media + length fast.now + length block.now + length slow.now) }
    ensures at_most { M.moment journal.new.media ≤ M.moment journal.old.media + length fast.now + length block.now + length slow.now }
    ensures turn { GoesInTurn fast.now block.now slow.now (M.moment journal.old.media) (M.moment journal.new.media) (M.left journal.old.media) (M.left journal.new.media) }
    ensures went { Went M.Media journal.old journal.new result }
    ensures lengths { SameLengths (M.seen journal.old.media) (M.seen journal.new.media) }
{
    let (for_fast, rest) = data.split_at(bytes_of(fast));
    let (for_block, for_slow) = rest.split_at(bytes_of(block));
    write_runs(journal, Tier::Fast, fast, for_fast)?;
    write_runs(journal, Tier::Block, block, for_block)?;
    write_runs(journal, Tier::Slow, slow, for_slow)
}

// Fences the tiers that were written, fastest first.
fn fence_all<M: Media>(
    journal: &mut Journal<M>,
    fast: &[Run],
    block: &[Run],
    slow: &[Run],
) -> Result<(), JournalError>
    requires going { journal.old.failed ≡ false }
    ensures loose { (s : Store) → StaysLoose journal.old.geometry s (M.moment journal.old.media) (M.moment journal.new.media) (M.left journal.old.media) (M.left journal.new.media) }
    ensures fast { OnOk result (0 < length fast.now → AtRest (M.seen journal.new.media) (M.left journal.new.media (M.moment journal.new.media)) Fast) }
    ensures block { OnOk result (0 < length block.now → AtRest (M.seen journal.new.media) (M.left journal.new.media (M.moment journal.new.media)) Block) }
    ensures slow { OnOk result (0 < length slow.now → AtRest (M.seen journal.new.media) (M.left journal.new.media (M.moment journal.new.media)) Slow) }
    ensures keeps_rest { OnOk result (KeepsRest (M.seen journal.old.media) (M.seen journal.new.media) (M.left journal.old.media (M.moment journal.old.media)) (M.left journal.new.media (M.moment journal.new.media))) }
    ensures seen { OnOk result ((t : Tier) → M.seen journal.new.media t ≡ M.seen journal.old.media t) }
    ensures calls { OnOk result (M.moment journal.new.media ≡ M.moment journal.old.media + fences_of fast.now + fences_of block.now + fences_of slow.now) }
    ensures at_most { M.moment journal.new.media ≤ M.moment journal.old.media + fences_of fast.now + fences_of block.now + fences_of slow.now }
    ensures turn { FencesInTurn fast.now block.now (M.moment journal.old.media) (M.moment journal.new.media) (M.left journal.old.media) (M.left journal.new.media) }
    ensures went { Went M.Media journal.old journal.new result }
    ensures lengths { SameLengths (M.seen journal.old.media) (M.seen journal.new.media) }
{
    fence_runs(journal, Tier::Fast, fast)?;
    fence_runs(journal, Tier::Block, block)?;
    fence_runs(journal, Tier::Slow, slow)
}

// Writes data to runs of three tiers, and fences each tier that was written.
fn flush_runs<M: Media>(
    journal: &mut Journal<M>,
    fast: &[Run],
    block: &[Run],
    slow: &[Run],
    data: &[u8],
) -> Result<(), JournalError>
    requires going { journal.old.failed ≡ false }
    requires fast { AreNormalRuns (data_first journal.old.geometry Fast) (tier_blocks journal.old.geometry Fast) fast.now }
    requires block { AreNormalRuns (data_first journal.old.geometry Block) (tier_blocks journal.old.geometry Block) block.now }
    requires slow { AreNormalRuns (data_first journal.old.geometry Slow) (tier_blocks journal.old.geometry Slow) slow.now }
    requires size { length «data».now ≡ 4096 * length (blocks_of fast.now) + 4096 * length (blocks_of block.now) + 4096 * length (blocks_of slow.now) }
    ensures loose { (s : Store) → AreFreeIn journal.old.geometry s Fast fast.now → AreFreeIn journal.old.geometry s Block block.now → AreFreeIn journal.old.geometry s Slow slow.now → StaysLoose journal.old.geometry s (M.moment journal.old.media) (M.moment journal.new.media) (M.left journal.old.media) (M.left journal.new.media) }
    ensures written { OnOk result (HoldData (disk M.Media journal.new) (tier_places fast.now block.now slow.now) «data».now) }
    ensures fast { OnOk result (0 < length fast.now → AtRest (M.seen journal.new.media) (M.left journal.new.media (M.moment journal.new.media)) Fast) }
    ensures block { OnOk result (0 < length block.now → AtRest (M.seen journal.new.media) (M.left journal.new.media (M.moment journal.new.media)) Block) }
    ensures slow { OnOk result (0 < length slow.now → AtRest (M.seen journal.new.media) (M.left journal.new.media (M.moment journal.new.media)) Slow) }
    ensures keeps_rest { OnOk result (KeepsRest (M.seen journal.old.media) (M.seen journal.new.media) (M.left journal.old.media (M.moment journal.old.media)) (M.left journal.new.media (M.moment journal.new.media))) }
    ensures calls { OnOk result (M.moment journal.new.media ≡ M.moment journal.old.media + tier_calls fast.now + tier_calls block.now + tier_calls slow.now) }
    ensures at_most { M.moment journal.new.media ≤ M.moment journal.old.media + tier_calls fast.now + tier_calls block.now + tier_calls slow.now }
    ensures turn { GoesInTurn fast.now block.now slow.now (M.moment journal.old.media) (M.moment journal.new.media) (M.left journal.old.media) (M.left journal.new.media) }
    ensures went { Went M.Media journal.old journal.new result }
    ensures lengths { SameLengths (M.seen journal.old.media) (M.seen journal.new.media) }
{
    write_all(journal, fast, block, slow, data)?;
    fence_all(journal, fast, block, slow)?;
    // For the proof: each tier is as long after the fences as before.
    journal.left_now();
    Ok(())
}

/// Writes data to the data blocks that were taken, to each block 4,096 bytes in order, with one device call for each run and then one fence for each tier that was
/// written, fastest first. The blocks have to be free, so nothing that is read changes; after it nothing is pending on the tiers that were written, and a batch may
/// name the blocks. It takes no memory.
///
/// `DeviceFault` where a device fails, and from then on: what these blocks hold is not known then, and no block that is in use has changed.
pub fn write_data<M: Media>(
    journal: &mut Journal<M>,
    taken: &Allocation,
    data: &[u8],
) -> Result<(), JournalError>
    requires apart { RunsAreNormal journal.old.geometry taken.now }
    requires free { (t : Tier) → AreFreeIn journal.old.geometry (disk M.Media journal.old) t (runs_of taken.now t) }
    requires size { length «data».now ≡ 4096 * length (taken_data taken.now) }

    // At each moment a stop leaves what differs from the store before in blocks alone that are free in it, where it did so before; and what holds a journal, where it did.
    ensures any_moment { StaysLoose journal.old.geometry (disk M.Media journal.old) (M.moment journal.old.media) (M.moment journal.new.media) (M.left journal.old.media) (M.left journal.new.media) }
    // So does the store that is seen in the end, also after a refusal; and from this store differs what may be left then, as it did from that before.
    ensures seen { IsLooseLeft journal.old.geometry (disk M.Media journal.old) (M.left journal.old.media (M.moment journal.old.media)) → Loose journal.old.geometry (disk M.Media journal.old) (disk M.Media journal.new) }
    ensures left_after { IsLooseLeft journal.old.geometry (disk M.Media journal.old) (M.left journal.old.media (M.moment journal.old.media)) → IsLooseLeft journal.old.geometry (disk M.Media journal.new) (M.left journal.new.media (M.moment journal.new.media)) }
    ensures written { OnOk result (HoldData (disk M.Media journal.new) (taken_data taken.now) «data».now) }
    ensures rests { OnOk result ((t : Tier) → 0 < length (runs_of taken.now t) → AtRest (M.seen journal.new.media) (M.left journal.new.media (M.moment journal.new.media)) t) }
    // A tier to which nothing is written is at rest where it was before.
    ensures keeps_rest { OnOk result (KeepsRest (M.seen journal.old.media) (M.seen journal.new.media) (M.left journal.old.media (M.moment journal.old.media)) (M.left journal.new.media (M.moment journal.new.media))) }
    // The runs are written fastest tier first, and then the tiers are fenced, fastest first, also where a device fails on the way.
    ensures turn { TakenInTurn taken.now (M.moment journal.old.media) (M.moment journal.new.media) (M.left journal.old.media) (M.left journal.new.media) }
    ensures calls { OnOk result (M.moment journal.new.media ≡ M.moment journal.old.media + calls_for taken.now) }
    ensures at_most { M.moment journal.new.media ≤ M.moment journal.old.media + calls_for taken.now }

    ensures only { IfErr result (λ e. e ≡ DeviceFault) }
    ensures fault { OnErr result ((journal.new.failed ≡ true) × ((journal.old.failed ≡ true) ⊎ Rose (M.faults journal.old.media) (M.faults journal.new.media))) }
    ensures quiet { OnOk result (M.faults journal.new.media ≡ M.faults journal.old.media) }
    ensures going { OnOk result ((journal.old.failed ≡ false) × (journal.new.failed ≡ false)) }
    ensures stays_failed { journal.old.failed ≡ true → (result ≡ Err DeviceFault) × (journal.new ≡ journal.old) }
    ensures geometry { journal.new.geometry ≡ journal.old.geometry }
    ensures lengths { SameLengths (M.seen journal.old.media) (M.seen journal.new.media) }
    ensures faults { M.faults journal.old.media ≤ M.faults journal.new.media }
    ensures one_fault { M.faults journal.new.media ≤ M.faults journal.old.media + 1 }
{
    if journal.has_failed() {
        return Err(JournalError::DeviceFault);
    }
    flush_runs(journal, &taken.fast, &taken.block, &taken.slow, data)
}
