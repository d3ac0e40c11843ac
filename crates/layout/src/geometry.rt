ghost use Rattle.std.specs.Prelude.{◌≡◌};
ghost use Rattle.layout.specs.Places.{sizes, allows, geometry_of, IsAllowed, data_blocks, node_blocks, node_end, data_first, tier_blocks, is_node, are_nodes, is_journaled, is_data, is_run};

use crate::places::{
    BASE_NODE_BLOCKS, DIRECTORY_BLOCKS, FILE_BLOCKS, FIRST_NODE_BLOCK, MARKS_BLOCK,
    MAX_DATA_BLOCKS, MAX_UNITS, MIN_UNITS, SPARE_BLOCKS,
};
use std::marker::Model;
use tier_device::Tier;

/// Where the blocks of a node's content lie.
#[derive(Clone, Copy, PartialEq, Eq)]
pub enum Space {
    /// Those of a directory: in the node pool.
    Nodes,
    /// Those of a file on one tier: among its data blocks.
    Data(Tier),
}

impl Space {
    ghost use Rattle.layout.specs.Places.{blocks_in};

    /// How many blocks a node has there at most: `DIRECTORY_BLOCKS` of a directory, `FILE_BLOCKS` of a file.
    pub fn blocks(self) -> u32
        ensures { result ≡ blocks_in self }
    {
        match self {
            Space::Nodes => DIRECTORY_BLOCKS,
            Space::Data(_) => FILE_BLOCKS,
        }
    }
}

/// How large the shared media are, which decides where everything stands: 2 to 65,536 units, and up to 65,536 data blocks on
/// each tier, together at least one for each unit and 512 more.
#[derive(Clone, Copy, Debug, PartialEq, Eq)]
pub struct Geometry {
    units: u32,
    fast: u32,
    block: u32,
    slow: u32,
}

impl Model for Geometry {
    ghost use Rattle.std.specs.Prelude.{◌≡◌, true};
    ghost use Rattle.layout.specs.Places.{Sizes, sizes, allows};

    ghost Value = { Sizes };

    ghost view = { λ g. sizes g.units g.fast g.block g.slow };

    ghost inverse = { λ s. record { units = s.units; fast = s.fast; block = s.block; slow = s.slow } };

    ghost invariant = { λ g. allows (sizes g.units g.fast g.block g.slow) ≡ true };
}

impl Geometry {
    /// The geometry of these units and data blocks; `None` if they do not keep the limits.
    pub fn new(units: u32, fast: u32, block: u32, slow: u32) -> Option<Self>
        ensures { result ≡ geometry_of (sizes units fast block slow) }
    {
        if !are_allowed(units, fast, block, slow) {
            return None;
        }
        Some(Geometry {
            units,
            fast,
            block,
            slow,
        })
    }

    /// The units that the tree may cost.
    pub fn units(&self) -> u32
        ensures units { result ≡ self.now.units }
        ensures allowed { IsAllowed self.now }
    {
        self.units
    }

    /// The data blocks of a tier.
    pub fn data_blocks(&self, tier: Tier) -> u32
        ensures blocks { result ≡ data_blocks self.now tier }
        ensures allowed { IsAllowed self.now }
    {
        match tier {
            Tier::Fast => self.fast,
            Tier::Block => self.block,
            Tier::Slow => self.slow,
        }
    }

    /// How many blocks the node pool has.
    pub fn node_blocks(&self) -> u32
        ensures blocks { result ≡ node_blocks self.now }
        ensures allowed { IsAllowed self.now }
    {
        BASE_NODE_BLOCKS + 2 * self.units
    }

    /// The block behind the node pool, which begins at `FIRST_NODE_BLOCK`.
    pub fn node_end(&self) -> u32
        ensures end { result ≡ node_end self.now }
        ensures allowed { IsAllowed self.now }
    {
        FIRST_NODE_BLOCK + self.node_blocks()
    }

    /// The first data block of a tier. The data blocks end where the tier ends.
    pub fn data_first(&self, tier: Tier) -> u32
        ensures first { result ≡ data_first self.now tier }
        ensures allowed { IsAllowed self.now }
    {
        let end = self.node_end();
        match tier {
            Tier::Fast => end,
            Tier::Block => 0,
            Tier::Slow => 0,
        }
    }

    /// How many blocks a tier has.
    pub fn tier_blocks(&self, tier: Tier) -> u32
        ensures { result ≡ tier_blocks self.now tier }
    {
        self.data_first(tier) + self.data_blocks(tier)
    }

    /// Whether a block of the fast tier lies in the node pool.
    pub fn is_node(&self, block: u32) -> bool
        ensures { result ≡ is_node self.now block }
    {
        FIRST_NODE_BLOCK <= block && block < self.node_end()
    }

    /// Whether blocks of the fast tier from a first one on all lie in the node pool.
    pub fn are_nodes(&self, first: u32, count: u32) -> bool
        ensures { result ≡ are_nodes self.now first count }
    {
        let end = first as u64 + count as u64;
        FIRST_NODE_BLOCK <= first && end <= self.node_end() as u64
    }

    /// Whether blocks from a first one on may all be a node's content in that space.
    pub fn is_run(&self, space: Space, first: u32, count: u32) -> bool
        ensures { result ≡ is_run self.now space first count }
    {
        match space {
            Space::Nodes => self.are_nodes(first, count),
            Space::Data(tier) => self.is_data(tier, first, count),
        }
    }

    /// Whether a batch may write a block of the fast tier: the superblock, a block of slots, the marks, or one of the node
    /// pool.
    pub fn is_journaled(&self, block: u32) -> bool
        ensures { result ≡ is_journaled self.now block }
    {
        block <= MARKS_BLOCK || self.is_node(block)
    }

    /// Whether blocks of a tier from a first one on are all data blocks.
    pub fn is_data(&self, tier: Tier, first: u32, count: u32) -> bool
        ensures { result ≡ is_data self.now tier first count }
    {
        let end = first as u64 + count as u64;
        self.data_first(tier) <= first && end <= self.tier_blocks(tier) as u64
    }
}

fn are_allowed(units: u32, fast: u32, block: u32, slow: u32) -> bool
    ensures { result ≡ allows (sizes units fast block slow) }
{
    MIN_UNITS <= units
        && units <= MAX_UNITS
        && fast <= MAX_DATA_BLOCKS
        && block <= MAX_DATA_BLOCKS
        && slow <= MAX_DATA_BLOCKS
        && units + SPARE_BLOCKS <= fast + block + slow
}
