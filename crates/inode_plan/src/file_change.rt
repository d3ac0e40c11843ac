// The bytes that the written blocks of a file get.
ghost use Rattle.std.specs.Prelude.{◌≡◌, ◌⊎◌, ◌++◌, ◌*◌, ◌+◌, ◌-◌, ◌<◌, ◌≤◌, ◌^◌, ℕ, List, length, take, drop, replicate, true, false, OnOk, OnErr, IfErr, IfSome, option_map};
ghost use Rattle.area_commit.specs.layout.declared.places.TheConstants.{BLOCK};
ghost use Rattle.area_commit.specs.area_reader.Store.{disk, logical_block};
ghost use Rattle.area_commit.specs.area_reader.Checks.{HasFound, IsOnce};
ghost use Rattle.area_commit.specs.area_reader.Looks.{Looks};
ghost use Rattle.area_commit.specs.area_reader.declared.error.AreaError.TheVariants.{DeviceFault, Memory};
ghost use Rattle.area_commit.specs.graph_change.Change.{IsWhole};
ghost use Rattle.area_commit.specs.graph_change.View.{change_of, new_length};
ghost use Rattle.area_commit.specs.tree_blocks.Inode.{LogicalBlocks};
ghost use Rattle.area_commit.specs.tree_blocks.FileBlock.{put_in, is_cut_off, ReadSame};
ghost use Rattle.inode_plan.specs.Bytes.{IsBlockAfter, AddsBlocks, GoesOn, blocks_from};

use crate::file_cut::is_cut_off;
use area_commit::in_area_reader::{AreaError, InodeExtents, block_number, first_place, read_block};
use area_commit::in_batch_journal::Journal;
use area_commit::in_graph_change::{BlockChange, NodeChange, NodeLength};
use area_commit::in_layout::BLOCK;
use area_commit::in_tree_blocks::change_block;
use std::alloc::AllocError;
use tier_device::Media;

// A logical block of an inode: zeros where no tier maps it.
fn read_logical<M: Media>(
    journal: &mut Journal<M>,
    inode: u32,
    found: &InodeExtents,
    number: u64,
    out: &mut [u8],
) -> Result<(), AreaError>
    requires size { length out.old ≡ BLOCK }
    requires found { HasFound journal.old.geometry (disk M.Media journal.old) inode found.now }
    requires once { IsOnce journal.old.geometry (disk M.Media journal.old) inode }
    requires going { journal.old.failed ≡ false }
    ensures bytes { OnOk result (ReadSame out.new (logical_block journal.old.geometry (disk M.Media journal.old) inode number)) }
    ensures only { IfErr result (λ e. e ≡ DeviceFault) }
    ensures looks { Looks M.Media journal.old journal.new result }
{
    let geometry = journal.geometry();
    match first_place(found, number) {
        Some((tier, place)) => {
            let block = block_number(&geometry, tier, place);
            read_block(journal, tier, block, out)
        }
        None => {
            clear(out);
            Ok(())
        }
    }
}

fn clear(out: &mut [u8])
    ensures { out.new ≡ replicate (length out.old) 0 }
{
    out.fill(0);
}

// What a change starts from at a block: the old block, or zeros where the file is made.
fn read_started<M: Media>(
    journal: &mut Journal<M>,
    inode: u32,
    found: Option<&InodeExtents>,
    number: u64,
    out: &mut [u8],
) -> Result<(), AreaError>
    requires size { length out.old ≡ BLOCK }
    requires found { IfSome found (λ x. HasFound journal.old.geometry (disk M.Media journal.old) inode x.now) }
    requires once { IsOnce journal.old.geometry (disk M.Media journal.old) inode }
    requires going { journal.old.failed ≡ false }
    ensures bytes { OnOk result (ReadSame out.new (blocks_from found.entry (logical_block journal.old.geometry (disk M.Media journal.old) inode) number)) }
    ensures only { IfErr result (λ e. e ≡ DeviceFault) }
    ensures looks { Looks M.Media journal.old journal.new result }
{
    match found {
        Some(extents) => read_logical(journal, inode, extents, number, out),
        None => {
            clear(out);
            Ok(())
        }
    }
}

// Whether the bytes that a block had make a difference: not where a byte is put at each place of it, nor where the file was cut before it.
fn needs_old(number: u64, len: NodeLength, put: Option<&BlockChange>) -> bool
    ensures none { result ≡ false → (is_cut_off (new_length len) number ≡ true) ⊎ IsWhole (put_in (option_map (λ b. b.now) put.entry)) }
    ensures kept { result ≡ true → is_cut_off (new_length len) number ≡ false }
    ensures part { result ≡ true → IsWhole (put_in (option_map (λ b. b.now) put.entry)) → ⊥ }
{
    if is_cut_off(len, number) {
        return false;
    }
    match put {
        Some(change) => !change.is_whole(),
        None => true,
    }
}

// Makes of a buffer of a block's size the block of a number, as the change makes it of the old one, which is read where its bytes make a difference.
fn change_into<M: Media>(
    journal: &mut Journal<M>,
    inode: u32,
    found: Option<&InodeExtents>,
    change: &NodeChange,
    number: u64,
    block: &mut [u8],
) -> Result<(), AreaError>
    requires size { length block.old ≡ BLOCK }
    requires found { IfSome found (λ x. HasFound journal.old.geometry (disk M.Media journal.old) inode x.now) }
    requires once { IsOnce journal.old.geometry (disk M.Media journal.old) inode }
    requires going { journal.old.failed ≡ false }
    ensures made { OnOk result (IsBlockAfter (change_of change.now) (blocks_from found.entry (logical_block journal.old.geometry (disk M.Media journal.old) inode)) number block.new) }
    ensures only { IfErr result (λ e. e ≡ DeviceFault) }
    ensures looks { Looks M.Media journal.old journal.new result }
{
    let put = change.blocks.get(&number);
    if !needs_old(number, change.length, put) {
        change_block(block, number, change.length, put);
        return Ok(());
    }
    read_started(journal, inode, found, number, block)?;
    change_block(block, number, change.length, put);
    Ok(())
}

// So many zero bytes more.
fn add_zeros(out: &mut Vec<u8>, size: usize) -> Result<(), AllocError>
    requires { size ≤ BLOCK }
    ensures longer { OnOk result (out.new.items ≡ out.old.items ++ replicate size 0) }
    ensures refused { OnErr result (out.new.items ≡ out.old.items) }
{
    out.resize(out.len() + size, 0)
}

// Makes of the last block, which ends the bytes, the one of a number; what is before it stays.
fn change_last<M: Media>(
    journal: &mut Journal<M>,
    inode: u32,
    found: Option<&InodeExtents>,
    change: &NodeChange,
    number: u64,
    out: &mut Vec<u8>,
) -> Result<(), AreaError>
    requires long { BLOCK ≤ length out.old.items }
    requires found { IfSome found (λ x. HasFound journal.old.geometry (disk M.Media journal.old) inode x.now) }
    requires once { IsOnce journal.old.geometry (disk M.Media journal.old) inode }
    requires going { journal.old.failed ≡ false }
    ensures front { take (length out.old.items - BLOCK) out.new.items ≡ take (length out.old.items - BLOCK) out.old.items }
    ensures long { length out.new.items ≡ length out.old.items }
    ensures made { OnOk result (IsBlockAfter (change_of change.now) (blocks_from found.entry (logical_block journal.old.geometry (disk M.Media journal.old) inode)) number (drop (length out.old.items - BLOCK) out.new.items)) }
    ensures only { IfErr result (λ e. e ≡ DeviceFault) }
    ensures looks { Looks M.Media journal.old journal.new result }
{
    let at = out.len() - BLOCK;
    change_into(journal, inode, found, change, number, &mut out[at..])
}

// Adds a block of a number, as the change makes it of the old one.
fn push_block<M: Media>(
    journal: &mut Journal<M>,
    inode: u32,
    found: Option<&InodeExtents>,
    change: &NodeChange,
    number: u64,
    out: &mut Vec<u8>,
) -> Result<(), AreaError>
    requires found { IfSome found (λ x. HasFound journal.old.geometry (disk M.Media journal.old) inode x.now) }
    requires once { IsOnce journal.old.geometry (disk M.Media journal.old) inode }
    requires going { journal.old.failed ≡ false }
    ensures added { OnOk result ((block : List ℕ) × (out.new.items ≡ out.old.items ++ block) × (length block ≡ BLOCK) × IsBlockAfter (change_of change.now) (blocks_from found.entry (logical_block journal.old.geometry (disk M.Media journal.old) inode)) number block) }
    ensures refused { OnErr result (GoesOn out.old.items out.new.items) }
    ensures only { IfErr result (λ e. (e ≡ DeviceFault) ⊎ (e ≡ Memory)) }
    ensures looks { Looks M.Media journal.old journal.new result }
{
    add_zeros(out, BLOCK)?;
    change_last(journal, inode, found, change, number, out)
}

// The bytes of a block that a change puts whole.
fn whole_block(change: &NodeChange, number: u64) -> Option<&[u8]>
    ensures long { IfSome result (λ bytes. length bytes.now ≡ BLOCK) }
    ensures made { IfSome result (λ bytes. (old : LogicalBlocks) → IsBlockAfter (change_of change.now) old number bytes.now) }
{
    match change.blocks.get(&number) {
        Some(put) => match put.whole_bytes() {
            Some(bytes) => Some(bytes),
            None => None,
        },
        None => None,
    }
}

// Adds a block of a number: the bytes that are put, where the change puts it whole, and else what it makes of the old block.
fn add_block<M: Media>(
    journal: &mut Journal<M>,
    inode: u32,
    found: Option<&InodeExtents>,
    change: &NodeChange,
    number: u64,
    out: &mut Vec<u8>,
) -> Result<(), AreaError>
    requires found { IfSome found (λ x. HasFound journal.old.geometry (disk M.Media journal.old) inode x.now) }
    requires once { IsOnce journal.old.geometry (disk M.Media journal.old) inode }
    requires going { journal.old.failed ≡ false }
    ensures added { OnOk result ((block : List ℕ) × (out.new.items ≡ out.old.items ++ block) × (length block ≡ BLOCK) × IsBlockAfter (change_of change.now) (blocks_from found.entry (logical_block journal.old.geometry (disk M.Media journal.old) inode)) number block) }
    ensures refused { OnErr result (GoesOn out.old.items out.new.items) }
    ensures only { IfErr result (λ e. (e ≡ DeviceFault) ⊎ (e ≡ Memory)) }
    ensures looks { Looks M.Media journal.old journal.new result }
{
    match whole_block(change, number) {
        Some(bytes) => {
            out.extend_from_slice(bytes)?;
            Ok(())
        }
        None => push_block(journal, inode, found, change, number, out),
    }
}

// Adds the blocks of these numbers.
fn push_blocks<M: Media>(
    journal: &mut Journal<M>,
    inode: u32,
    found: Option<&InodeExtents>,
    change: &NodeChange,
    numbers: &[u64],
    out: &mut Vec<u8>,
) -> Result<(), AreaError>
    requires found { IfSome found (λ x. HasFound journal.old.geometry (disk M.Media journal.old) inode x.now) }
    requires once { IsOnce journal.old.geometry (disk M.Media journal.old) inode }
    requires going { journal.old.failed ≡ false }
    ensures added { OnOk result (AddsBlocks (change_of change.now) (blocks_from found.entry (logical_block journal.old.geometry (disk M.Media journal.old) inode)) numbers.now (length numbers.now) out.old.items out.new.items) }
    ensures refused { OnErr result (GoesOn out.old.items out.new.items) }
    ensures only { IfErr result (λ e. (e ≡ DeviceFault) ⊎ (e ≡ Memory)) }
    ensures memory { IfErr result (λ e. e ≡ Memory → 0 < length numbers.now) }
    ensures looks { Looks M.Media journal.old journal.new result }
{
    'each: for index in 0..numbers.len() {
        add_block(journal, inode, found, change, numbers[index], out)?;
    }
    Ok(())
}

// Room for the bytes of so many blocks more.
fn make_room(out: &mut Vec<u8>, blocks: usize) -> Result<(), AllocError>
    ensures same { out.new.items ≡ out.old.items }
    ensures none { OnErr result (0 < blocks) }
{
    match blocks.checked_mul(BLOCK) {
        Some(size) => out.reserve(size),
        None => Err(AllocError),
    }
}

/// Adds the blocks of a file of these numbers to bytes, one behind the other, as a change makes them of the old ones:
/// of those of the inode, or of none where the file is made. An old block is read only where its bytes make a
/// difference: not where the new one is put whole, nor where it begins behind a cut; that is a matter of cost alone.
/// `Memory` where there was none for the bytes of a block. What was there stays in front, also after a refusal, when
/// more bytes may stand behind it.
pub fn read_changed<M: Media>(
    journal: &mut Journal<M>,
    inode: u32,
    found: Option<&InodeExtents>,
    change: &NodeChange,
    numbers: &[u64],
    out: &mut Vec<u8>,
) -> Result<(), AreaError>
    requires found { IfSome found (λ x. HasFound journal.old.geometry (disk M.Media journal.old) inode x.now) }
    requires once { IsOnce journal.old.geometry (disk M.Media journal.old) inode }
    requires going { journal.old.failed ≡ false }
    ensures added { OnOk result (AddsBlocks (change_of change.now) (blocks_from found.entry (logical_block journal.old.geometry (disk M.Media journal.old) inode)) numbers.now (length numbers.now) out.old.items out.new.items) }
    ensures refused { OnErr result (GoesOn out.old.items out.new.items) }
    ensures only { IfErr result (λ e. (e ≡ DeviceFault) ⊎ (e ≡ Memory)) }
    ensures memory { IfErr result (λ e. e ≡ Memory → 0 < length numbers.now) }
    ensures looks { Looks M.Media journal.old journal.new result }
{
    make_room(out, numbers.len())?;
    push_blocks(journal, inode, found, change, numbers, out)
}
