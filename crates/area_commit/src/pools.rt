ghost use Rattle.std.specs.Prelude.{◌≡◌, ◌≢◌, ◌≤◌, ◌<◌, ◌+◌, ◌++◌, ◌^◌, ◌⊎◌, ◌↔◌, ℕ, [], false, length, take, drop, get_or, OnOk, OnErr, IfOk, IfErr, IsErrOf};
ghost use Rattle.tier_device.specs.declared.media.Tier.{Tier};
ghost use Rattle.tier_device.specs.declared.media.Tier.TheVariants.{Fast};
ghost use Rattle.area_reader.specs.layout.declared.places.TheConstants.{FIRST_NODE_BLOCK};
ghost use Rattle.area_reader.specs.layout.Places.{node_end, data_first, tier_blocks};
ghost use Rattle.area_reader.specs.Store.{Store};
ghost use Rattle.area_reader.specs.BlockMarks.{UsedMarks, marks_in, is_marked};
ghost use Rattle.block_alloc.specs.Value.{InOrder, IsUsed};
ghost use Rattle.block_alloc.specs.Runs.{blocks_of};
ghost use Rattle.block_alloc.specs.declared.error.AllocatorError.TheVariants.{NoBlock, Memory};
ghost use Rattle.area_commit.specs.Value.{data_pool, free_data, AreInOrder, HasRanges, AreFree, GivesRun, HasUnmarked, MarksAll};
ghost use Rattle.area_commit.specs.Allocations.{taken_data, runs_of, WereTaken, LeavesRoom, CanRelease, TakesMore, WasReleased, IsNone, SameFree, KeepsRoom};

use crate::allocation::{Allocation, give_run, give_runs, take_more, take_runs};
use area_reader::UsedBlocks;
use area_reader::in_layout::{FIRST_NODE_BLOCK, Geometry};
use block_alloc::{AllocatorError, FreeRuns, Run};
use std::alloc::{AllocError, Global};
use std::marker::Model;
use tier_device::Tier;

/// The free blocks of the shared media: those of the node pool, which extent blocks and directory blocks share, and the data blocks of each tier. Contracts see each
/// pool as `FreeRuns` is seen: its range, its free blocks as a rising list, and how many runs can be given without memory.
#[derive(Drop)]
pub struct Pools {
    alloc: Global,
    nodes: FreeRuns,
    fast: FreeRuns,
    block: FreeRuns,
    slow: FreeRuns,
}

impl Model for Pools {
    ghost use Rattle.area_commit.specs.Value.{PoolsView, AreKept};

    ghost Value = { PoolsView };

    ghost view = { λ p. record { nodes = p.nodes; fast = p.fast; block = p.block; slow = p.slow } };

    ghost invariant = { λ p. AreKept (record { nodes = p.nodes; fast = p.fast; block = p.block; slow = p.slow }) };
}

// The blocks of a tier's range that are not marked, one for each mark.
fn unmarked_runs(alloc: Global, first: u32, marks: &[bool]) -> Result<FreeRuns, AllocError>
    requires { first + length marks.now < 2 ^ 32 }
    ensures first { IfOk result (λ v. v.first ≡ first) }
    ensures end { IfOk result (λ v. v.end ≡ first + length marks.now) }
    ensures free { (m : UsedMarks) (t : Tier) → ((k : ℕ) → k < length marks.now → get_or marks.now k false ≡ is_marked m t (first + k)) → IfOk result (HasUnmarked m t) }
    ensures ordered { IfOk result InOrder }
{
    FreeRuns::from_used(alloc, first, marks)
}

// The data blocks of a tier that are not marked.
fn unmarked_data(
    alloc: Global,
    geometry: &Geometry,
    used: &UsedBlocks,
    tier: Tier,
) -> Result<FreeRuns, AllocError>
    requires { length (marks_in used.now tier) ≡ tier_blocks geometry.now tier }
    ensures first { IfOk result (λ v. v.first ≡ data_first geometry.now tier) }
    ensures end { IfOk result (λ v. v.end ≡ tier_blocks geometry.now tier) }
    ensures free { IfOk result (HasUnmarked used.now tier) }
    ensures ordered { IfOk result InOrder }
{
    let marks = used.data_marks(geometry, tier);
    unmarked_runs(alloc, geometry.data_first(tier), marks)
}

// The blocks of the node pool that are not marked.
fn unmarked_nodes(
    alloc: Global,
    geometry: &Geometry,
    used: &UsedBlocks,
) -> Result<FreeRuns, AllocError>
    requires { length (marks_in used.now Fast) ≡ tier_blocks geometry.now Fast }
    ensures first { IfOk result (λ v. v.first ≡ FIRST_NODE_BLOCK) }
    ensures end { IfOk result (λ v. v.end ≡ node_end geometry.now) }
    ensures fits { IfOk result (λ v. v.end < 2 ^ 32) }
    ensures free { IfOk result (HasUnmarked used.now Fast) }
    ensures ordered { IfOk result InOrder }
{
    // For the proof: the end of the node pool of allowed sizes is below 2^32.
    let _end = geometry.node_end();
    let marks = used.node_marks(geometry);
    unmarked_runs(alloc, FIRST_NODE_BLOCK, marks)
}

impl Pools {
    /// The pools of media of this geometry where the blocks in use are marked: all others are free. The cost is one look at each mark.
    pub fn from_used(
        alloc: Global,
        geometry: &Geometry,
        used: &UsedBlocks,
    ) -> Result<Pools, AllocError>
        requires { (t : Tier) → length (marks_in used.now t) ≡ tier_blocks geometry.now t }
        ensures ranges { IfOk result (HasRanges geometry.now) }
        ensures free { IfOk result (λ pools. (s : Store) → MarksAll geometry.now s used.now → AreFree geometry.now s pools) }
    {
        let nodes = unmarked_nodes(alloc, geometry, used)?;
        let fast = unmarked_data(alloc, geometry, used, Tier::Fast)?;
        let block = unmarked_data(alloc, geometry, used, Tier::Block)?;
        let slow = unmarked_data(alloc, geometry, used, Tier::Slow)?;
        Ok(Pools {
            alloc,
            nodes,
            fast,
            block,
            slow,
        })
    }

    /// How many data blocks of a tier are free.
    pub fn free(&self, tier: Tier) -> u32
        ensures count { result ≡ length (data_pool self.now tier).free }
        ensures ordered { AreInOrder self.now }
    {
        match tier {
            Tier::Fast => self.fast.free(),
            Tier::Block => self.block.free(),
            Tier::Slow => self.slow.free(),
        }
    }

    /// How many blocks of the node pool are free.
    pub fn free_nodes(&self) -> u32
        ensures { result ≡ length self.now.nodes.free }
    {
        self.nodes.free()
    }

    /// Makes room for so many runs to be given to each pool without memory. After a refusal the pools have the same free blocks.
    pub fn reserve(
        &mut self,
        nodes: usize,
        fast: usize,
        block: usize,
        slow: usize,
    ) -> Result<(), AllocError>
        ensures nodes { OnOk result (nodes ≤ self.new.nodes.room) }
        ensures fast { OnOk result (fast ≤ self.new.fast.room) }
        ensures block { OnOk result (block ≤ self.new.block.room) }
        ensures slow { OnOk result (slow ≤ self.new.slow.room) }
        ensures same { SameFree self.old self.new }
        ensures kept { KeepsRoom self.old self.new }
    {
        self.nodes.reserve(nodes)?;
        self.fast.reserve(fast)?;
        self.block.reserve(block)?;
        self.slow.reserve(slow)
    }

    // Takes so many blocks of each pool, as far as there is memory.
    fn fill(
        &mut self,
        taken: &mut Allocation,
        nodes: u32,
        fast: u32,
        block: u32,
        slow: u32,
    ) -> Result<(), AllocatorError>
        requires { IsNone taken.old }
        ensures taken { WereTaken self.old self.new taken.new }
        ensures spare { LeavesRoom self.old self.new taken.new }
        ensures nodes { OnOk result (length (blocks_of taken.new.nodes.items) ≡ nodes) }
        ensures fast { OnOk result (length (blocks_of taken.new.fast.items) ≡ fast) }
        ensures block { OnOk result (length (blocks_of taken.new.block.items) ≡ block) }
        ensures slow { OnOk result (length (blocks_of taken.new.slow.items) ≡ slow) }
        ensures few { IsErrOf result NoBlock → (length self.old.nodes.free < nodes) ⊎ (length self.old.fast.free < fast) ⊎ (length self.old.block.free < block) ⊎ (length self.old.slow.free < slow) }
        ensures ordered { AreInOrder self.new }
    {
        take_runs(&mut self.nodes, nodes, &mut taken.nodes)?;
        take_runs(&mut self.fast, fast, &mut taken.fast)?;
        take_runs(&mut self.block, block, &mut taken.block)?;
        take_runs(&mut self.slow, slow, &mut taken.slow)
    }

    // Takes so many blocks of each pool.
    fn take_parts(
        &mut self,
        nodes: u32,
        fast: u32,
        block: u32,
        slow: u32,
    ) -> Result<Allocation, AllocatorError>
        requires nodes { nodes ≤ length self.old.nodes.free }
        requires fast { fast ≤ length self.old.fast.free }
        requires block { block ≤ length self.old.block.free }
        requires slow { slow ≤ length self.old.slow.free }
        ensures fronts { IfOk result (WereTaken self.old self.new) }
        ensures spare { IfOk result (LeavesRoom self.old self.new) }
        ensures room { OnOk result (KeepsRoom self.old self.new) }
        ensures undone { IfOk result (CanRelease self.new) }
        ensures nodes { IfOk result (λ taken. length (blocks_of taken.nodes.items) ≡ nodes) }
        ensures fast { IfOk result (λ taken. length (blocks_of taken.fast.items) ≡ fast) }
        ensures block { IfOk result (λ taken. length (blocks_of taken.block.items) ≡ block) }
        ensures slow { IfOk result (λ taken. length (blocks_of taken.slow.items) ≡ slow) }
        ensures only { IfErr result (λ e. e ≡ Memory) }
        ensures err { OnErr result (SameFree self.old self.new) }
    {
        match self.reserve(1, 1, 1, 1) {
            Ok(()) => (),
            Err(_) => return Err(AllocatorError::Memory),
        }
        let mut taken = Allocation {
            nodes: Vec::new(self.alloc),
            fast: Vec::new(self.alloc),
            block: Vec::new(self.alloc),
            slow: Vec::new(self.alloc),
        };
        match self.fill(&mut taken, nodes, fast, block, slow) {
            Ok(()) => Ok(taken),
            Err(error) => {
                self.release(taken);
                Err(error)
            }
        }
    }

    /// Takes the lowest free blocks of the node pool, and the first free data blocks: fastest tier first, in each tier the lowest. `NoBlock` exactly where fewer blocks
    /// of the node pool are free, or fewer data blocks of all tiers together; `Memory` where the answer found no room. After a refusal the pools have the same free
    /// blocks.
    pub fn take(&mut self, nodes: u32, blocks: u32) -> Result<Allocation, AllocatorError>
        ensures nodes { IfOk result (λ taken. blocks_of taken.nodes.items ≡ take nodes self.old.nodes.free) }
        ensures data { IfOk result (λ taken. taken_data taken ≡ take blocks (free_data self.old)) }
        ensures left_nodes { OnOk result (self.new.nodes.free ≡ drop nodes self.old.nodes.free) }
        ensures left_data { OnOk result (free_data self.new ≡ drop blocks (free_data self.old)) }
        ensures fronts { IfOk result (WereTaken self.old self.new) }
        ensures spare { IfOk result (LeavesRoom self.old self.new) }
        ensures room { OnOk result (KeepsRoom self.old self.new) }
        // What was taken can be given back without memory.
        ensures undone { IfOk result (CanRelease self.new) }
        ensures few { IsErrOf result NoBlock ↔ ((length self.old.nodes.free < nodes) ⊎ (length (free_data self.old) < blocks)) }
        ensures err { OnErr result (SameFree self.old self.new) }
    {
        let fast = self.fast.free().min(blocks);
        let block = self.block.free().min(blocks - fast);
        let slow = blocks - fast - block;
        if self.nodes.free() < nodes || self.slow.free() < slow {
            return Err(AllocatorError::NoBlock);
        }
        self.take_parts(nodes, fast, block, slow)
    }

    /// Takes the lowest free blocks of the node pool, and the lowest free data blocks of one tier. `NoBlock` exactly where fewer are free, of the node pool or in the tier;
    /// `Memory` where the answer found no room. After a refusal the pools have the same free blocks.
    pub fn take_in(
        &mut self,
        nodes: u32,
        tier: Tier,
        blocks: u32,
    ) -> Result<Allocation, AllocatorError>
        ensures nodes { IfOk result (λ taken. blocks_of taken.nodes.items ≡ take nodes self.old.nodes.free) }
        ensures taken { IfOk result (λ taken. blocks_of (runs_of taken tier) ≡ take blocks (data_pool self.old tier).free) }
        ensures left_nodes { OnOk result (self.new.nodes.free ≡ drop nodes self.old.nodes.free) }
        ensures left { OnOk result ((data_pool self.new tier).free ≡ drop blocks (data_pool self.old tier).free) }
        ensures others { IfOk result (λ taken. (t : Tier) → t ≢ tier → blocks_of (runs_of taken t) ≡ []) }
        ensures fronts { IfOk result (WereTaken self.old self.new) }
        ensures spare { IfOk result (LeavesRoom self.old self.new) }
        ensures room { OnOk result (KeepsRoom self.old self.new) }
        // What was taken can be given back without memory.
        ensures undone { IfOk result (CanRelease self.new) }
        ensures few { IsErrOf result NoBlock ↔ ((length self.old.nodes.free < nodes) ⊎ (length (data_pool self.old tier).free < blocks)) }
        ensures err { OnErr result (SameFree self.old self.new) }
    {
        if self.nodes.free() < nodes || self.free(tier) < blocks {
            return Err(AllocatorError::NoBlock);
        }
        match tier {
            Tier::Fast => self.take_parts(nodes, blocks, 0, 0),
            Tier::Block => self.take_parts(nodes, 0, blocks, 0),
            Tier::Slow => self.take_parts(nodes, 0, 0, blocks),
        }
    }

    /// Takes so many blocks of the node pool more than were taken before: the lowest that are free, which stand behind those. Where the first new run goes on where the last
    /// old one ends, they become one, so that the runs still rise and none touches the next. `NoBlock` exactly where fewer are free, `Memory` where the answer found no room:
    /// after a refusal the pools have the same free blocks, and the same blocks are taken.
    pub fn take_nodes(&mut self, count: u32, taken: &mut Allocation) -> Result<(), AllocatorError>
        requires { CanRelease self.old taken.old }
        ensures took { OnOk result (TakesMore self.old taken.old self.new taken.new) }
        ensures nodes { OnOk result (blocks_of taken.new.nodes.items ≡ blocks_of taken.old.nodes.items ++ take count self.old.nodes.free) }
        ensures data { (t : Tier) → runs_of taken.new t ≡ runs_of taken.old t }
        ensures left { OnOk result (self.new.nodes.free ≡ drop count self.old.nodes.free) }
        ensures others { (t : Tier) → data_pool self.new t ≡ data_pool self.old t }
        ensures room { KeepsRoom self.old self.new }
        ensures few { IsErrOf result NoBlock ↔ (length self.old.nodes.free < count) }
        ensures err { OnErr result (SameFree self.old self.new × (taken.new ≡ taken.old) × CanRelease self.new taken.old) }
    {
        take_more(self.alloc, &mut self.nodes, count, &mut taken.nodes)
    }

    /// Gives back what was taken, without memory.
    pub fn release(&mut self, taken: Allocation)
        requires { CanRelease self.old taken }
        ensures { WasReleased self.old self.new taken }
    {
        give_runs(&mut self.nodes, &taken.nodes);
        give_runs(&mut self.fast, &taken.fast);
        give_runs(&mut self.block, &taken.block);
        give_runs(&mut self.slow, &taken.slow);
    }

    /// Gives back a run of data blocks, none of which is free. It takes no memory: there has to be room for a run.
    pub fn give(&mut self, tier: Tier, run: Run)
        requires used { IsUsed (data_pool self.old tier) run }
        requires room { 0 < (data_pool self.old tier).room }
        ensures given { GivesRun (data_pool self.old tier) (data_pool self.new tier) run }
        ensures others { (t : Tier) → t ≢ tier → data_pool self.new t ≡ data_pool self.old t }
        ensures nodes { self.new.nodes ≡ self.old.nodes }
    {
        match tier {
            Tier::Fast => give_run(&mut self.fast, run),
            Tier::Block => give_run(&mut self.block, run),
            Tier::Slow => give_run(&mut self.slow, run),
        }
    }

    /// Gives back a run of the node pool, none of whose blocks is free. It takes no memory: there has to be room for a run.
    pub fn give_nodes(&mut self, run: Run)
        requires used { IsUsed self.old.nodes run }
        requires room { 0 < self.old.nodes.room }
        ensures given { GivesRun self.old.nodes self.new.nodes run }
        ensures others { (t : Tier) → data_pool self.new t ≡ data_pool self.old t }
    {
        give_run(&mut self.nodes, run);
    }
}
