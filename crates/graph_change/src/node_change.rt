ghost use Rattle.std.specs.Prelude.{◌≡◌, ℕ, false, None, IsSome, IsTrue, nat_eq, nat_lt, true, ◌+◌, ◌-◌, ◌*◌, ◌/◌, ◌<◌, ◌≤◌, ◌^◌, length, OnOk, OnErr};
ghost use Rattle.std.specs.List.{range_with_len, list_any};
ghost use Rattle.std.specs.Ordering.{nat_cmp};
ghost use Rattle.std.specs.BTreeMap.{get, btree_map_len};
ghost use Rattle.std.specs.FinMap as fin;
ghost use Rattle.graph_change.specs.Bytes.{grown_to};
ghost use Rattle.posix_calls.specs.declared.limits.TheConstants.{UNIT_BYTES};
ghost use Rattle.graph_change.specs.Change.{new_change, change_after, patch_at, put_patch, put_blocks, span, cut_last, cut_patches};
ghost use Rattle.graph_change.specs.Memory.{takes_memory};
ghost use Rattle.graph_change.specs.View.{base_of, new_length, patches_of, change_of};

use crate::block_change::BlockChange;
use crate::changed_blocks::{changed_blocks, set_blocks};
use crate::made_blocks::make_blocks;
use crate::parts::{NodeBase, NodeLength};
use crate::shared_part::SharedPart;
use file_graph::{Effect, Kind, NameMap};
use posix_calls::{Name, SharedBytes, UNIT_BYTES};
use std::alloc::{AllocError, Global};
use std::collections::BTreeMap;

/// What becomes of one inode: of each part the last word, and nothing of the parts that stay.
#[derive(Drop)]
pub struct NodeChange {
    pub base: NodeBase,
    /// How many names the node has.
    pub names: Option<u32>,
    /// The length of a file.
    pub length: NodeLength,
    /// The new bytes of a file, at the numbers of its blocks.
    pub blocks: BTreeMap<u64, BlockChange>,
    /// What stands at each of some names of a directory; none where the name is taken out.
    pub entries: NameMap<Option<(u32, Kind)>>,
}

impl NodeChange {
    /// Nothing but what the rest starts from.
    pub fn new(alloc: Global, base: NodeBase) -> Self
        ensures { change_of result ≡ new_change (base_of base) }
    {
        NodeChange {
            base,
            names: None,
            length: NodeLength::Grown { to: 0 },
            blocks: BTreeMap::new(alloc),
            entries: NameMap::new(alloc),
        }
    }

    /// Adds an effect, which is one on this inode, behind those that are in it. It wants memory for the name of an entry and for a write of at least one byte;
    /// one that would end past all numbers finds none. Where there is none for it, the change stays as it was.
    pub fn add(&mut self, alloc: Global, effect: &Effect) -> Result<(), AllocError>
        ensures change { OnOk result (change_of self.new ≡ change_after effect.now (change_of self.old)) }
        ensures refused { OnErr result (change_of self.new ≡ change_of self.old) }
        ensures memory { OnErr result (takes_memory effect.now (change_of self.old) ≡ true) }
    {
        match effect {
            Effect::Make { kind, .. } => {
                self.begin_anew(alloc, NodeBase::Made { kind: *kind });
                Ok(())
            }
            Effect::Enter {
                inode,
                kind,
                name,
                ..
            } => put_entry(alloc, &mut self.entries, name, Some((*inode, *kind))),
            Effect::Leave { name, .. } => put_entry(alloc, &mut self.entries, name, None),
            Effect::Names { names, .. } => {
                self.names = Some(*names);
                Ok(())
            }
            Effect::Size { size, .. } => {
                self.length = self.length.after_resize(*size);
                cut_blocks(&mut self.blocks, *size);
                Ok(())
            }
            Effect::Bytes { at, bytes, .. } => write(
                alloc,
                &mut self.length,
                &mut self.blocks,
                *at,
                bytes,
            ),
            Effect::Drop { .. } => {
                self.begin_anew(alloc, NodeBase::Gone);
                Ok(())
            }
            Effect::Swap { .. } => Ok(()),
        }
    }

    // Nothing but what the rest starts from, in place of what is in it.
    fn begin_anew(&mut self, alloc: Global, base: NodeBase)
        ensures { change_of self.new ≡ new_change (base_of base) }
    {
        *self = NodeChange::new(alloc, base);
    }
}

// Says what stands at a name from now on. Where there is no memory for the name, the entries stay.
fn put_entry(
    alloc: Global,
    entries: &mut NameMap<Option<(u32, Kind)>>,
    name: &Name,
    entry: Option<(u32, Kind)>,
) -> Result<(), AllocError>
    ensures put { OnOk result (entries.new ≡ fin.insert entries.old name.now entry) }
    ensures refused { OnErr result (entries.new ≡ entries.old) }
{
    entries.put(name.copy(alloc)?, entry)
}

// Puts bytes at an offset of the file. A write that would end past all numbers finds no memory; nothing changes then.
fn write(
    alloc: Global,
    len: &mut NodeLength,
    blocks: &mut BTreeMap<u64, BlockChange>,
    at: u64,
    bytes: &SharedBytes,
) -> Result<(), AllocError>
    ensures length { OnOk result (new_length len.new ≡ grown_to (at + length bytes.now) (new_length len.old)) }
    ensures blocks { OnOk result (patches_of blocks.new ≡ put_blocks at bytes.now (span at (length bytes.now)) (patches_of blocks.old)) }
    ensures same_length { OnErr result (new_length len.new ≡ new_length len.old) }
    ensures same_blocks { OnErr result (patches_of blocks.new ≡ patches_of blocks.old) }
    ensures memory { OnErr result (0 < length bytes.now) }
{
    let Some(end) = at.checked_add(bytes.len() as u64) else {
        return Err(AllocError);
    };
    if at < end {
        put_bytes(alloc, blocks, at, bytes)?;
    }
    *len = len.after_write(end);
    Ok(())
}

// Puts bytes, at least one, into the blocks that they lie in. Where there is no memory for one of these, none changes.
fn put_bytes(
    alloc: Global,
    blocks: &mut BTreeMap<u64, BlockChange>,
    at: u64,
    bytes: &SharedBytes,
) -> Result<(), AllocError>
    requires some { 0 < length bytes.now }
    requires end { at + length bytes.now < 2 ^ 64 }
    ensures put { OnOk result (patches_of blocks.new ≡ put_blocks at bytes.now (span at (length bytes.now)) (patches_of blocks.old)) }
    ensures refused { OnErr result (patches_of blocks.new ≡ patches_of blocks.old) }
{
    let place = (at % UNIT_BYTES as u64) as usize;
    if bytes.len() <= UNIT_BYTES as usize - place {
        let part = SharedPart::of(bytes, 0, bytes.len())?;
        return put_in_one(alloc, blocks, at / UNIT_BYTES as u64, place, part);
    }
    put_in_several(alloc, blocks, at, bytes)
}

// Puts bytes into one block, which is made if it is not there: its place among the others is looked for but once.
fn put_in_one(
    alloc: Global,
    blocks: &mut BTreeMap<u64, BlockChange>,
    block: u64,
    place: usize,
    part: SharedPart,
) -> Result<(), AllocError>
    requires { place + length part ≤ UNIT_BYTES }
    ensures put { OnOk result (patches_of blocks.new ≡ fin.insert (patches_of blocks.old) block (put_patch place part (patch_at (patches_of blocks.old) block))) }
    ensures refused { OnErr result (patches_of blocks.new ≡ patches_of blocks.old) }
{
    let changed = blocks.entry(block)?.or_insert(BlockChange::new());
    changed.put(alloc, place, part)
}

// Puts bytes, at least one, into the blocks that they lie in: what each of these becomes is made first, so that nothing wants memory once one of them is changed.
fn put_in_several(
    alloc: Global,
    blocks: &mut BTreeMap<u64, BlockChange>,
    at: u64,
    bytes: &SharedBytes,
) -> Result<(), AllocError>
    requires some { 0 < length bytes.now }
    requires end { at + length bytes.now < 2 ^ 64 }
    ensures put { OnOk result (patches_of blocks.new ≡ put_blocks at bytes.now (span at (length bytes.now)) (patches_of blocks.old)) }
    ensures refused { OnErr result (patches_of blocks.new ≡ patches_of blocks.old) }
{
    let first = at / UNIT_BYTES as u64;
    let end = (at + (bytes.len() as u64 - 1)) / UNIT_BYTES as u64 + 1;
    let changed = changed_blocks(alloc, blocks, at, bytes, first, end)?;
    make_blocks(alloc, blocks, first, end)?;
    set_blocks(blocks, first, changed);
    Ok(())
}

// Drops what is put behind a size.
fn cut_blocks(blocks: &mut BTreeMap<u64, BlockChange>, size: u64)
    ensures { patches_of blocks.new ≡ cut_patches size (patches_of blocks.old) }
{
    drop_from(blocks, blocks_begun(size));
    cut_last(blocks, size);
}

// How many blocks of a file of this size are begun.
fn blocks_begun(size: u64) -> u64
    ensures { (b : ℕ) → nat_lt b result ≡ nat_lt (UNIT_BYTES * b) size }
{
    let whole = size / UNIT_BYTES as u64;
    if size % UNIT_BYTES as u64 == 0 {
        whole
    } else {
        whole + 1
    }
}

// Drops the blocks from a number on, the last one first: none of the others is looked at.
fn drop_from(blocks: &mut BTreeMap<u64, BlockChange>, end: u64)
    ensures { patches_of blocks.new ≡ fin.retain_keys (patches_of blocks.old) (λ b. nat_lt b end) }
{
    'last: while goes_past(blocks, end) {
        let _ = blocks.pop_last();
    }
}

// Whether a block has this number, or a greater one.
fn goes_past(blocks: &BTreeMap<u64, BlockChange>, end: u64) -> bool
    ensures some { IsTrue result → 0 < btree_map_len blocks.now }
    ensures past { IsTrue result → (b : ℕ) × (end ≤ b) × IsSome (get nat_cmp blocks.now b) }
    ensures none { result ≡ false → (b : ℕ) → end ≤ b → get nat_cmp blocks.now b ≡ None }
{
    match blocks.last_key_value() {
        Some((last, _)) => end <= *last,
        None => false,
    }
}

// Cuts the block within which a size ends.
fn cut_last(blocks: &mut BTreeMap<u64, BlockChange>, size: u64)
    ensures { patches_of blocks.new ≡ cut_last size (patches_of blocks.old) }
{
    if let Some(last) = blocks.get_mut(&(size / UNIT_BYTES as u64)) {
        last.cut((size % UNIT_BYTES as u64) as usize);
    }
}
