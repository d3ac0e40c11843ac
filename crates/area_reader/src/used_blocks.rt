// Which blocks are in use.
ghost use Rattle.std.specs.Prelude.{◌≡◌, ◌<◌, ◌+◌, ℕ, true, false, length, replicate, get_or, set, IfOk, Some, ◌≤◌, ◌↔◌};
ghost use Rattle.tier_device.specs.declared.media.Tier.{Tier};
ghost use Rattle.tier_device.specs.declared.media.Tier.TheVariants.{Fast};
ghost use Rattle.batch_journal.specs.layout.declared.places.TheConstants.{FIRST_NODE_BLOCK};
ghost use Rattle.batch_journal.specs.layout.Places.{Sizes, tier_blocks, data_blocks, data_first, node_blocks};
ghost use Rattle.area_reader.specs.Store.{Store};
ghost use Rattle.area_reader.specs.Reads.{IsRoom, Free};
ghost use Rattle.area_reader.specs.Format.{Use, used_block};
ghost use Rattle.area_reader.specs.BlockMarks.{UsedMarks, marks_in, is_marked, IsMarked, HasRoom, Adds};

use batch_journal::in_layout::{FIRST_NODE_BLOCK, Geometry};
use std::alloc::{AllocError, Global};
use std::marker::Model;
use tier_device::Tier;

/// A mark for each block of each tier, the journal's and the slots' among them.
#[derive(Drop)]
pub struct UsedBlocks {
    fast: Vec<bool>,
    block: Vec<bool>,
    slow: Vec<bool>,
}

impl Model for UsedBlocks {
    ghost use Rattle.area_reader.specs.BlockMarks.{UsedMarks};

    ghost Value = { UsedMarks };

    ghost view = { λ u. record { fast = u.fast.items; block = u.block.items; slow = u.slow.items } };
}

// So many marks, none of them set.
fn no_marks(alloc: Global, count: u32) -> Result<Vec<bool>, AllocError>
    ensures { IfOk result (λ marks. marks.items ≡ replicate count false) }
{
    vec![in alloc; false; count as usize]
}

// Sets a mark, and tells whether it was set.
fn set_mark(marks: &mut Vec<bool>, at: u64) -> bool
    requires { at < length marks.old.items }
    ensures was { result ≡ get_or marks.old.items at false }
    ensures marks { marks.new.items ≡ set marks.old.items at true }
{
    let was = marks[at as usize];
    marks[at as usize] = true;
    was
}

impl UsedBlocks {
    /// No block of media of this geometry is marked. An error where there is no memory for the marks.
    pub fn new(alloc: Global, geometry: &Geometry) -> Result<UsedBlocks, AllocError>
        ensures room { IfOk result (λ m. (t : Tier) → length (marks_in m t) ≡ tier_blocks geometry.now t) }
        ensures none { IfOk result (λ m. (t : Tier) (k : ℕ) → is_marked m t k ≡ false) }
    {
        let fast = no_marks(alloc, geometry.tier_blocks(Tier::Fast))?;
        let block = no_marks(alloc, geometry.tier_blocks(Tier::Block))?;
        let slow = no_marks(alloc, geometry.tier_blocks(Tier::Slow))?;
        Ok(UsedBlocks { fast, block, slow })
    }

    /// Marks a block, and tells whether it was marked before.
    pub fn mark(&mut self, tier: Tier, at: u64) -> bool
        requires { HasRoom self.old tier at }
        ensures was { result ≡ is_marked self.old tier at }
        ensures marks { Adds self.old self.new (λ t k. (t ≡ tier) × (k ≡ at)) }
    {
        match tier {
            Tier::Fast => set_mark(&mut self.fast, at),
            Tier::Block => set_mark(&mut self.block, at),
            Tier::Slow => set_mark(&mut self.slow, at),
        }
    }

    /// The marks of a tier's blocks, from the first one on.
    pub fn marks(&self, tier: Tier) -> &[bool]
        ensures { result.now ≡ marks_in self.now tier }
    {
        match tier {
            Tier::Fast => &self.fast,
            Tier::Block => &self.block,
            Tier::Slow => &self.slow,
        }
    }

    /// The marks of the node pool, which begins at `FIRST_NODE_BLOCK`.
    pub fn node_marks(&self, geometry: &Geometry) -> &[bool]
        requires { length (marks_in self.now Fast) ≡ tier_blocks geometry.now Fast }
        ensures count { length result.now ≡ node_blocks geometry.now }
        ensures marks { (k : ℕ) → k < node_blocks geometry.now → get_or result.now k false ≡ is_marked self.now Fast (FIRST_NODE_BLOCK + k) }
    {
        let first = FIRST_NODE_BLOCK as usize;
        part_of(&self.fast, first, geometry.node_blocks() as usize)
    }

    /// The marks of a tier's data blocks, from the first one on.
    pub fn data_marks(&self, geometry: &Geometry, tier: Tier) -> &[bool]
        requires { length (marks_in self.now tier) ≡ tier_blocks geometry.now tier }
        ensures count { length result.now ≡ data_blocks geometry.now tier }
        ensures marks { (k : ℕ) → k < data_blocks geometry.now tier → get_or result.now k false ≡ is_marked self.now tier (data_first geometry.now tier + k) }
    {
        let first = geometry.data_first(tier) as usize;
        part_of(self.marks(tier), first, geometry.data_blocks(tier) as usize)
    }
}

// So many marks from one on.
fn part_of(marks: &[bool], first: usize, count: usize) -> &[bool]
    requires { first + count ≤ length marks.now }
    ensures count { length result.now ≡ count }
    ensures marks { (k : ℕ) → k < count → get_or result.now k false ≡ get_or marks.now (first + k) false }
{
    &marks[first..first + count]
}

/// Where the blocks in use are marked, the other blocks of the pool and those for data are free.
pub fn unmarked_blocks_are_free()
    ensures { (g : Sizes) (s : Store) (m : UsedMarks) → ((t : Tier) (k : ℕ) → IsMarked m t k ↔ ((u : Use) × (used_block g s u ≡ Some (t, k)))) → (t : Tier) (k : ℕ) → IsRoom g t k → Free g s t k ↔ (is_marked m t k ≡ false) }
{}
