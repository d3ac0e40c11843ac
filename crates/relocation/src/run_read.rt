// The bytes of a run.
ghost use Rattle.std.specs.Prelude.{◌≡◌, ◌≤◌, ◌<◌, ◌+◌, ◌*◌, ◌^◌, ◌⊎◌, ℕ, false, length, OnOk, OnErr, IfOk, IfErr};
ghost use Rattle.inode_plan.specs.layout.declared.places.TheConstants.{BLOCK};
ghost use Rattle.inode_plan.specs.batch_journal.Images.{slice};
ghost use Rattle.inode_plan.specs.area_reader.Store.{disk, logical_block};
ghost use Rattle.inode_plan.specs.area_reader.Checks.{IsOnce};
ghost use Rattle.inode_plan.specs.area_reader.Looks.{Looks};
ghost use Rattle.inode_plan.specs.area_reader.declared.error.AreaError.TheVariants.{DeviceFault, Memory};
ghost use Rattle.inode_plan.specs.Lists.{LiesSomewhere, HoldsRun, LieAsIn};

use block_alloc::Run;
use inode_plan::in_area_reader::{AreaError, read_block};
use inode_plan::in_batch_journal::Journal;
use inode_plan::in_extent_tree::BlockMap;
use inode_plan::in_layout::BLOCK;
use std::alloc::Global;
use tier_device::Media;

// A logical block that lies somewhere.
fn read_logical<M: Media>(
    journal: &mut Journal<M>,
    inode: u32,
    map: &BlockMap,
    block: u32,
    out: &mut [u8],
) -> Result<(), AreaError>
    requires size { length out.old ≡ BLOCK }
    requires map { LieAsIn journal.old.geometry (disk M.Media journal.old) inode map.now }
    requires once { IsOnce journal.old.geometry (disk M.Media journal.old) inode }
    requires lies { LiesSomewhere map.now block }
    ensures bytes { OnOk result (out.new ≡ logical_block journal.old.geometry (disk M.Media journal.old) inode block) }
    ensures size { length out.new ≡ BLOCK }
    ensures only { IfErr result (λ e. e ≡ DeviceFault) }
    ensures looks { Looks M.Media journal.old journal.new result }
{
    match map.at(block) {
        Some(place) => read_block(journal, place.tier, place.block, out),
        None => unreachable!(),
    }
}

// The blocks of a run, one after the other, into a buffer of their size.
fn read_into<M: Media>(
    journal: &mut Journal<M>,
    inode: u32,
    map: &BlockMap,
    run: Run,
    out: &mut [u8],
) -> Result<(), AreaError>
    requires few { run.first + run.count < 2 ^ 32 }
    requires size { length out.old ≡ BLOCK * run.count }
    requires map { LieAsIn journal.old.geometry (disk M.Media journal.old) inode map.now }
    requires once { IsOnce journal.old.geometry (disk M.Media journal.old) inode }
    requires lie { (n : ℕ) → n < run.count → LiesSomewhere map.now (run.first + n) }
    requires going { journal.old.failed ≡ false }
    ensures bytes { OnOk result (HoldsRun (logical_block journal.old.geometry (disk M.Media journal.old) inode) run.first run.count out.new) }
    ensures size { length out.new ≡ BLOCK * run.count }
    ensures only { IfErr result (λ e. e ≡ DeviceFault) }
    ensures looks { Looks M.Media journal.old journal.new result }
{
    'each: for place in 0..run.count {
        let at = BLOCK * place as usize;
        let end = at + BLOCK;
        read_logical(journal, inode, map, run.first + place, &mut out[at..end])?;
    }
    Ok(())
}

/// Reads the bytes of a run of logical blocks, each of which lies somewhere. `Memory` where there was none for them.
pub fn read_run<M: Media>(
    alloc: Global,
    journal: &mut Journal<M>,
    inode: u32,
    map: &BlockMap,
    run: Run,
) -> Result<Vec<u8>, AreaError>
    requires few { run.first + run.count < 2 ^ 32 }
    requires map { LieAsIn journal.old.geometry (disk M.Media journal.old) inode map.now }
    requires once { IsOnce journal.old.geometry (disk M.Media journal.old) inode }
    requires lie { (n : ℕ) → n < run.count → LiesSomewhere map.now (run.first + n) }
    requires going { journal.old.failed ≡ false }
    ensures bytes { IfOk result (λ v. HoldsRun (logical_block journal.old.geometry (disk M.Media journal.old) inode) run.first run.count v.items) }
    ensures size { IfOk result (λ v. length v.items ≡ BLOCK * run.count) }
    ensures only { IfErr result (λ e. (e ≡ DeviceFault) ⊎ (e ≡ Memory)) }
    ensures looks { Looks M.Media journal.old journal.new result }
{
    let size = BLOCK * run.count as usize;
    let mut bytes = vec![in alloc; 0u8; size]?;
    read_into(journal, inode, map, run, &mut bytes)?;
    Ok(bytes)
}
