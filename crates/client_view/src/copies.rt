ghost use Rattle.std.specs.Prelude.{◌≡◌, ◌==◌, ◌<◌, ◌+◌, ◌^◌, ◌∷◌, [], ℕ, length, Some, None, IsSome, is_some, not, true, false, IfOk, OnOk, OnErr};
ghost use Rattle.std.specs.List.{filter};
ghost use Rattle.block_cache.specs.CacheList.{put_block as put_first, used_run, without_file};
ghost use Rattle.block_cache.specs.declared.bytes.TheConstants.{BLOCK_SIZE};
ghost use Rattle.client_plan.specs.file_graph.Graph.{is_among};
ghost use Rattle.client_plan.specs.file_graph.Numbers.{is_inode};
ghost use Rattle.client_plan.specs.call_effects.Knowledge.{IsForgetful, with_blocks, with_copy};
ghost use Rattle.posix_calls.specs.Content.{with_length};
ghost use Rattle.posix_calls.specs.declared.limits.TheConstants.{MAX_DESCRIPTORS, MAX_INODE};
ghost use Rattle.posix_calls.specs.Own.{own_of};
ghost use Rattle.posix_calls.specs.Tree.{set_own};
ghost use Rattle.client_view.specs.KnowledgeTables.{copy_at, knows, size_known};
ghost use Rattle.client_view.specs.BlockPut.{IsBlockLong};
ghost use Rattle.client_view.specs.KnowledgeChanges.{all_closed, knows_nothing, without_files, with_descriptor, without_blocks, without_blocks_at, without_inode, without_granted};
ghost use Rattle.client_view.specs.AfterRecord.{without_touched};

use crate::slots::{Slot, forget_slot, forget_slots, size_at, slot_at, unknown_slots};
use block_cache::{BLOCK_SIZE, Blocks};
use client_plan::in_file_graph::Effect;
use posix_calls::{Bytes, Descriptor, MAX_INODE, OwnDescriptors};
use record_validation::NodeSummary;
use std::alloc::{AllocError, Global};
use std::marker::Model;

/// What one client knows: its descriptors, its copies of nodes without the bytes of files, its blocks of files, and the numbers for new
/// nodes that it was granted. Contracts see these parts, and by them what the client knows (`knows`).
#[derive(Drop)]
pub struct ClientCopies {
    pub(crate) alloc: Global,
    pub(crate) client: u32,
    pub(crate) own: OwnDescriptors,
    pub(crate) copies: Vec<Slot>,
    pub(crate) blocks: Blocks,
    pub(crate) numbers: Vec<u32>,
}

impl Model for ClientCopies {
    ghost use Rattle.std.specs.Prelude.{◌≡◌, ◌+◌, length};
    ghost use Rattle.posix_calls.specs.declared.limits.TheConstants.{MAX_INODE};
    ghost use Rattle.client_view.specs.KnowledgeTables.{Held, held_code};

    ghost Value = { Held };

    ghost coded = { held_code };

    ghost view = { λ c. record { client = c.client; own = c.own; copies = c.copies.items; blocks = c.blocks; numbers = c.numbers.items } };

    ghost invariant = { λ c. length c.copies.items ≡ MAX_INODE + 1 };
}

impl ClientCopies {
    /// A client that knows nothing but its number.
    pub fn new(alloc: Global, client: u32) -> Result<Self, AllocError>
        ensures client { IfOk result (λ c. (knows c).client ≡ client) }
        ensures own { IfOk result (λ c. (number : ℕ) → (knows c).own number ≡ None) }
        ensures copies { IfOk result (λ c. (i : ℕ) → (knows c).copies i ≡ None) }
        ensures blocks { IfOk result (λ c. (i b : ℕ) → (knows c).blocks i b ≡ None) }
        ensures granted { IfOk result (λ c. (i : ℕ) → (knows c).granted i ≡ false) }
    {
        let copies = unknown_slots(alloc)?;
        let blocks = Blocks::new(alloc)?;
        Ok(ClientCopies {
            alloc,
            client,
            own: OwnDescriptors::new(),
            copies,
            blocks,
            numbers: Vec::new(alloc),
        })
    }

    /// A copy of what stands at an inode, or that nothing stands there, in place of what was known of it; its blocks go. It takes no
    /// memory.
    pub fn put_view(&mut self, inode: u32, view: Option<NodeSummary>)
        requires { is_inode inode ≡ true }
        ensures known { knows self.new ≡ with_copy (without_blocks (knows self.old) inode) inode view }
        ensures more { (knows self.old).copies inode ≡ None → knows self.new ≡ with_copy (knows self.old) inode view }
        ensures rest { self.new ≡ record self.old { copies = self.new.copies; blocks = without_file inode self.old.blocks } }
    {
        self.copies[inode as usize] = Some(view);
        self.blocks.drop_file(inode)
    }

    /// A block of a file that there is a copy of: the bytes that the file has there, the last one fewer than 4,096 where the file ends in
    /// it. It is the one used last, and past 256 blocks the one used longest ago is forgotten. Where there is no memory for it, nothing
    /// changes.
    pub fn put_block(&mut self, inode: u32, block: u32, bytes: &[u8]) -> Result<(), AllocError>
        requires { IsBlockLong (knows self.old) inode block bytes.now }
        ensures there { OnOk result ((knows self.new).blocks inode block ≡ Some bytes.now) }
        ensures kept { OnOk result (self.new ≡ record self.old { blocks = put_first inode block (with_length BLOCK_SIZE bytes.now) self.old.blocks }) }
        ensures no_more { OnOk result (IsForgetful (with_blocks (knows self.old) inode block 1 (λ _. bytes.now)) (knows self.new)) }
        ensures client { OnOk result ((knows self.new).client ≡ (knows self.old).client) }
        ensures own { OnOk result ((knows self.new).own ≡ (knows self.old).own) }
        ensures copies { OnOk result ((knows self.new).copies ≡ (knows self.old).copies) }
        ensures granted { OnOk result ((knows self.new).granted ≡ (knows self.old).granted) }
        ensures refused { OnErr result (self.new ≡ self.old) }
    {
        put_padded(self.alloc, &mut self.blocks, inode, block, bytes)
    }

    /// So many blocks of a file from one on are used in turn, those that are kept: the last of them is the one used last now. Nothing
    /// else changes, and nothing that is known (`used_blocks_are_known_as_before`). It takes no memory.
    pub fn use_blocks(&mut self, inode: u32, first: u32, count: u32)
        requires { first + count < 2 ^ 32 }
        ensures { self.new ≡ record self.old { blocks = used_run inode first count self.old.blocks } }
    {
        use_run(&mut self.blocks, inode, first, count);
    }

    /// What is known of an inode goes: the copy and the blocks, and no others. It takes no memory.
    pub fn forget(&mut self, inode: u32)
        ensures known { knows self.new ≡ without_inode (knows self.old) inode }
        ensures rest { self.new ≡ record self.old { copies = self.new.copies; blocks = without_file inode self.old.blocks } }
    {
        self.blocks.drop_file(inode);
        forget_slot(&mut self.copies, inode as usize);
    }

    /// The blocks of a file go, and its copy stays. It takes no memory.
    pub fn forget_blocks(&mut self, inode: u32)
        ensures known { knows self.new ≡ without_blocks (knows self.old) inode }
        ensures rest { self.new ≡ record self.old { blocks = without_file inode self.old.blocks } }
    {
        self.blocks.drop_file(inode)
    }

    /// The blocks of what effects touch go, and the copies stay. It takes no memory.
    pub fn forget_touched(&mut self, effects: &[Effect])
        ensures known { knows self.new ≡ without_blocks_at (knows self.old) effects.now }
        ensures order { self.new.blocks ≡ without_touched self.old.blocks effects.now }
        ensures rest { self.new ≡ record self.old { blocks = self.new.blocks } }
    {
        drop_touched(&mut self.blocks, effects);
    }

    /// These numbers are granted, in place of those that were. It takes no memory.
    pub fn put_numbers(&mut self, numbers: Vec<u32>)
        ensures { self.new ≡ record self.old { numbers = numbers.items } }
    {
        self.numbers = numbers;
    }

    /// A number that was granted is used, and granted no longer. It takes no memory.
    pub fn use_number(&mut self, number: u32)
        ensures known { knows self.new ≡ without_granted (knows self.old) number }
        ensures kept { self.new ≡ record self.old { numbers = filter (λ n. not (n == number)) self.old.numbers } }
    {
        without_number(&mut self.numbers, number);
    }

    /// Something is open at a number, or nothing any more.
    pub fn set_descriptor(&mut self, number: u32, what: Option<Descriptor>)
        requires { IsSome what → number < MAX_DESCRIPTORS }
        ensures known { knows self.new ≡ with_descriptor (knows self.old) number what }
        ensures rest { self.new ≡ record self.old { own = self.new.own } }
    {
        put_descriptor(&mut self.own, number, what);
    }

    /// All that is open is closed. It takes no memory.
    pub fn close_all(&mut self)
        ensures known { knows self.new ≡ all_closed (knows self.old) }
        ensures rest { self.new ≡ record self.old { own = self.new.own } }
    {
        self.own = OwnDescriptors::new();
    }

    /// Nothing is known any more but the client's number: nothing is open, no node is copied, no block is kept, and no number is granted.
    /// It takes no memory.
    pub fn forget_all(&mut self)
        ensures known { knows self.new ≡ knows_nothing self.old.client }
        ensures client { self.new.client ≡ self.old.client }
        ensures numbers { self.new.numbers ≡ [] }
        ensures order { self.new.blocks ≡ without_files (MAX_INODE + 1) self.old.blocks }
    {
        self.own = OwnDescriptors::new();
        self.numbers.clear();
        forget_slots(&mut self.copies);
        drop_files(&mut self.blocks);
    }

    /// The client's number.
    pub fn client(&self) -> u32
        ensures { result ≡ (knows self.now).client }
    {
        self.client
    }

    /// What the client has open.
    pub fn own(&self) -> &OwnDescriptors
        ensures { own_of result.now ≡ (knows self.now).own }
    {
        &self.own
    }

    /// Whether there is a copy of what stands at an inode, or that nothing stands there.
    pub fn has_copy(&self, inode: u32) -> bool
        ensures { result ≡ is_some ((knows self.now).copies inode) }
    {
        slot_at(&self.copies, inode).is_some()
    }

    /// How many bytes a file has that there is a copy of.
    pub fn size_of(&self, inode: u32) -> Option<u64>
        ensures { result ≡ size_known (copy_at self.now.copies inode) }
    {
        size_at(&self.copies, inode)
    }

    /// The numbers for new nodes that were granted and are not used.
    pub fn numbers(&self) -> &[u32]
        ensures list { result.now ≡ self.now.numbers }
        ensures granted { (i : ℕ) → is_among i result.now ≡ (knows self.now).granted i }
    {
        &self.numbers
    }
}

/// The blocks of an effect's inodes go, one or two, and no others.
pub fn drop_subjects(blocks: &mut Blocks, effect: &Effect)
    ensures { blocks.new ≡ without_touched blocks.old (effect.now ∷ []) }
{
    let (first, second) = effect.subjects();
    blocks.drop_file(first);
    if let Some(other) = second {
        blocks.drop_file(other);
    }
}

// The blocks of all files go, inode by inode.
fn drop_files(blocks: &mut Blocks)
    ensures { blocks.new ≡ without_files (MAX_INODE + 1) blocks.old }
{
    for inode in 0..MAX_INODE + 1 {
        blocks.drop_file(inode);
    }
}

// The blocks of what effects touch go, and no others.
fn drop_touched(blocks: &mut Blocks, effects: &[Effect])
    ensures { blocks.new ≡ without_touched blocks.old effects.now }
{
    for effect in effects {
        drop_subjects(blocks, effect);
    }
}

// What is open at a number; past all numbers nothing ever is.
fn put_descriptor(own: &mut OwnDescriptors, number: u32, what: Option<Descriptor>)
    requires { IsSome what → number < MAX_DESCRIPTORS }
    ensures { (n : ℕ) → own_of own.new n ≡ set_own (own_of own.old) number what n }
{
    match what {
        Some(descriptor) => own.set(number, Some(descriptor)),
        None => own.clear(number),
    }
}

// So many blocks of a file from one on are used in turn, those that are kept.
fn use_run(blocks: &mut Blocks, inode: u32, first: u32, count: u32)
    requires { first + count < 2 ^ 32 }
    ensures { blocks.new ≡ used_run inode first count blocks.old }
{
    for block in first..first + count {
        let _ = blocks.get(inode, block);
    }
}

// A number is among these no longer.
fn without_number(numbers: &mut Vec<u32>, number: u32)
    ensures { numbers.new.items ≡ filter (λ n. not (n == number)) numbers.old.items }
{
    numbers.retain(|n| *n != number);
}

// A block is put with zeros up to its whole length, a whole one as it is.
fn put_padded(
    alloc: Global,
    blocks: &mut Blocks,
    inode: u32,
    block: u32,
    bytes: &[u8],
) -> Result<(), AllocError>
    ensures put { OnOk result (blocks.new ≡ put_first inode block (with_length BLOCK_SIZE bytes.now) blocks.old) }
    ensures refused { OnErr result (blocks.new ≡ blocks.old) }
{
    if bytes.len() == BLOCK_SIZE {
        return blocks.put(inode, block, bytes);
    }
    let padded = padded_block(alloc, bytes)?;
    blocks.put(inode, block, padded.as_slice())
}

// The bytes of a block, and zeros up to its whole length.
fn padded_block(alloc: Global, bytes: &[u8]) -> Result<Bytes, AllocError>
    ensures padded { IfOk result (λ padded. padded ≡ with_length BLOCK_SIZE bytes.now) }
    ensures whole { IfOk result (λ padded. length padded ≡ BLOCK_SIZE) }
{
    let mut padded = bytes.to_vec(alloc)?;
    padded.resize(BLOCK_SIZE, 0)?;
    Ok(Bytes::from_vec(padded))
}
