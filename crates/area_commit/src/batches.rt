// The images of a batch.
ghost use Rattle.std.specs.Prelude.{◌≡◌, ◌≤◌, ◌<◌, ◌+◌, ◌-◌, ◌*◌, ◌⊎◌, ℕ, List, [], ◌∷◌, ◌++◌, Option, length, true, false, OnOk, IfOk, IfErr};
ghost use Rattle.posix_calls.specs.declared.limits.TheConstants.{MAX_INODE};
ghost use Rattle.tier_device.specs.declared.media.Tier.TheVariants.{Fast};
ghost use Rattle.area_reader.specs.layout.declared.places.TheConstants.{BLOCK, SLOTS_IN_BLOCK, MARKS_BLOCK, FIRST_NODE_BLOCK};
ghost use Rattle.area_reader.specs.layout.Places.{Sizes};
ghost use Rattle.area_reader.specs.batch_journal.Images.{next_of};
ghost use Rattle.area_reader.specs.batch_journal.Blocks.{AreJournaled};
ghost use Rattle.area_reader.specs.batch_journal.Volume.{KeepsGeometry};
ghost use Rattle.area_reader.specs.Store.{disk};
ghost use Rattle.area_reader.specs.Damage.{OnDamage};
ghost use Rattle.area_reader.specs.Looks.{Looks};
ghost use Rattle.area_commit.specs.Slots.{RiseIn, has_slot};
ghost use Rattle.area_commit.specs.Batches.{AreNodes, HasSlotImages, images_for, marks_images, IsBatchOf};

use crate::nodes::NodeImages;
use crate::slots::{ChangedSlot, count_up_to, put_slots};
use area_reader::in_batch_journal::{Batch, Journal};
use area_reader::in_layout::{FIRST_SLOT_BLOCK, MARKS_BLOCK, Marks};
use area_reader::{AreaError, blank_block, read_block};
use std::alloc::{AllocError, Global};
use tier_device::{Media, Tier};

/// Makes the batch that changes the slots of some inodes, the marks, if there are new ones, and blocks of the node pool. The blocks in which changed slots stand are read
/// for it; nothing is written. `Memory` where there was none for the images.
pub fn batch_of<M: Media>(
    alloc: Global,
    journal: &mut Journal<M>,
    slots: &[ChangedSlot],
    marks: Option<Marks>,
    nodes: &NodeImages,
) -> Result<Batch, AreaError>
    requires slots { RiseIn 1 MAX_INODE slots.now }
    requires nodes { AreNodes journal.old.geometry nodes.now }
    requires few { length nodes.now ≤ 990 }
    ensures batch { IfOk result (IsBatchOf (disk M.Media journal.old) slots.now marks nodes.now) }
    ensures places { IfOk result (AreJournaled journal.old.geometry) }
    ensures superblock { IfOk result (KeepsGeometry journal.old.geometry) }
    ensures few { IfOk result (λ batch. length batch ≤ length slots.now + length (marks_images marks) + length nodes.now) }
    ensures few_blocks { IfOk result (λ batch. length batch ≤ 32 + length (marks_images marks) + length nodes.now) }
    ensures only { IfErr result (λ e. OnDamage e (λ _ _. ⊥)) }
    ensures looks { Looks M.Media journal.old journal.new result }
{
    if journal.has_failed() {
        return Err(AreaError::DeviceFault);
    }
    let mut batch = Batch::new(alloc)?;
    push_slot_blocks(journal, slots, &mut batch)?;
    push_marks(marks, &mut batch)?;
    nodes.push_all(&mut batch)?;
    Ok(batch)
}

// Reads each block in which one of the slots stands, and pushes it with the slots over it.
fn push_slot_blocks<M: Media>(
    journal: &mut Journal<M>,
    slots: &[ChangedSlot],
    batch: &mut Batch,
) -> Result<(), AreaError>
    requires going { journal.old.failed ≡ false }
    requires slots { RiseIn 1 MAX_INODE slots.now }
    requires none { batch.old ≡ [] }
    ensures images { OnOk result (HasSlotImages slots.now (disk M.Media journal.old Fast) MARKS_BLOCK batch.new) }
    ensures whole { OnOk result ((k : ℕ) → has_slot k slots.now ≡ true → length (disk M.Media journal.old Fast k) ≡ BLOCK) }
    ensures next { OnOk result (next_of batch.new ≤ MARKS_BLOCK) }
    ensures few { OnOk result (length batch.new ≤ length slots.now) }
    ensures few_blocks { OnOk result (length batch.new ≤ 32) }
    ensures places { OnOk result ((g : Sizes) → AreJournaled g batch.new) }
    ensures only { IfErr result (λ e. OnDamage e (λ _ _. ⊥)) }
    ensures looks { Looks M.Media journal.old journal.new result }
{
    let mut rest = slots;
    'numbers: for block in FIRST_SLOT_BLOCK..MARKS_BLOCK {
        let (here, others) = rest.split_at(count_up_to(rest, block));
        push_slot_block(journal, block, here, batch)?;
        rest = others;
    }
    Ok(())
}

// Reads a block, and pushes it with the slots over it that stand there; does nothing where there are none.
fn push_slot_block<M: Media>(
    journal: &mut Journal<M>,
    block: u32,
    slots: &[ChangedSlot],
    batch: &mut Batch,
) -> Result<(), AreaError>
    requires going { journal.old.failed ≡ false }
    requires first { 1 ≤ block }
    requires last { block ≤ 32 }
    requires inside { RiseIn (SLOTS_IN_BLOCK * (block - 1) + 1) (SLOTS_IN_BLOCK * block) slots.now }
    requires room { length batch.old < 1023 }
    requires rises { next_of batch.old ≤ block }
    ensures pushed { OnOk result (batch.new ≡ batch.old ++ images_for block slots.now (disk M.Media journal.old Fast block)) }
    ensures whole { OnOk result (1 ≤ length slots.now → length (disk M.Media journal.old Fast block) ≡ BLOCK) }
    ensures next { OnOk result (next_of batch.new ≤ block + 1) }
    ensures only { IfErr result (λ e. OnDamage e (λ _ _. ⊥)) }
    ensures looks { Looks M.Media journal.old journal.new result }
{
    if slots.is_empty() {
        return Ok(());
    }
    let mut bytes = blank_block();
    read_block(journal, Tier::Fast, block, &mut bytes)?;
    put_slots(block, slots, &mut bytes);
    batch.push(block, &bytes)?;
    Ok(())
}

// Pushes the marks, if there are some.
fn push_marks(marks: Option<Marks>, batch: &mut Batch) -> Result<(), AllocError>
    requires room { length batch.old < 1023 }
    requires rises { next_of batch.old ≤ MARKS_BLOCK }
    ensures pushed { OnOk result (batch.new ≡ batch.old ++ marks_images marks) }
    ensures next { OnOk result (next_of batch.new ≤ FIRST_NODE_BLOCK) }
{
    match marks {
        Some(marks) => batch.push_image(MARKS_BLOCK, &marks),
        None => Ok(()),
    }
}
