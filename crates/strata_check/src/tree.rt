// The tree of the world that is recovered.
use crate::damage::describe_refusal;
use crate::tree_place::Place;
use script::Text;
use std::alloc::Global;
use tier_device::{MemMedia, Tier};
use world_files::in_area_recovery::RecoveryError;
use world_files::in_interleavings::World;
use world_files::in_layout::BLOCK;
use world_files::in_record_validation::NodeSummary;
use world_files::in_recovery::recover;
use world_files::read_parts;

/// Recovers a copy of an image, whose length is that of its geometry, and prints its tree, or why it is not recovered. Answers whether it is.
pub fn describe_recovery(alloc: Global, image: &[u8], text: &mut Text) -> bool {
    match recover_image(alloc, image) {
        Ok(world) => {
            let mut world = world;
            describe_charge(&world, text);
            describe_tree(alloc, &mut world, text);
            true
        }
        Err(error) => {
            describe_refusal(error, text);
            false
        }
    }
}

fn recover_image(alloc: Global, image: &[u8]) -> Result<World<MemMedia>, RecoveryError> {
    match read_parts(alloc, image) {
        Ok(parts) => match recover(alloc, parts) {
            Ok(world) => Ok(world),
            Err((error, _parts)) => Err(error),
        },
        Err(_) => Err(RecoveryError::Memory),
    }
}

fn describe_charge(world: &World<MemMedia>, text: &mut Text) {
    match world.system().kernel().book() {
        Ok(figures) => {
            text.field("recovered ", &figures.charge);
            text.field(" of ", &figures.capacity);
            text.put("\n");
        }
        Err(_) => text.cut(),
    }
}

// Prints each path, a directory before what is in it, in the order of names.
fn describe_tree(alloc: Global, world: &mut World<MemMedia>, text: &mut Text) {
    let mut left = Vec::new(alloc);
    leave(&mut left, Place::root(alloc), text);
    for _ in 0..u64::MAX {
        match left.pop() {
            Some(place) => describe_place(alloc, world, &place, &mut left, text),
            None => return,
        }
    }
}

// Leaves a place to be printed.
fn leave(left: &mut Vec<Place>, place: Place, text: &mut Text) {
    let is_cut = place.is_cut();
    let is_left = left.push(place).is_ok();
    if is_cut || !is_left {
        text.cut();
    }
}

// Prints what stands at a place. What is in a directory is left to be printed.
fn describe_place(
    alloc: Global,
    world: &mut World<MemMedia>,
    place: &Place,
    left: &mut Vec<Place>,
    text: &mut Text,
) {
    match node_at(world, place.inode) {
        Some(node) => {
            text.put(place.path());
            if node.is_dir() {
                text.field(" dir ", &node.entry_count());
                text.put("\n");
                leave_entries(alloc, place, &node, left, text);
            } else {
                describe_file(world, place.inode, &node, text);
            }
        }
        None => text.cut(),
    }
}

// What stands at an inode of a tree, which is none where there is no memory for it.
fn node_at(world: &mut World<MemMedia>, inode: u32) -> Option<NodeSummary> {
    match world.look(inode) {
        Ok(found) => found.node,
        Err(_) => None,
    }
}

// Leaves the entries of a directory, the last one first.
fn leave_entries(
    alloc: Global,
    place: &Place,
    node: &NodeSummary,
    left: &mut Vec<Place>,
    text: &mut Text,
) {
    for entry in node.entries().iter().rev() {
        let child = place.child(alloc, entry.name.as_slice(), entry.value.inode());
        leave(left, child, text);
    }
}

fn describe_file(world: &mut World<MemMedia>, inode: u32, node: &NodeSummary, text: &mut Text) {
    text.field(" file ", &node.file_size());
    text.field(" ", &node.file_names());
    let counts = count_blocks(world, inode, node.file_size(), text);
    text.field(" fast ", &counts.fast);
    text.field(" block ", &counts.block);
    text.field(" slow ", &counts.slow);
    text.field(" hole ", &counts.hole);
    text.put("\n");
}

// Where the blocks of a file lie.
#[derive(Clone, Copy)]
struct BlockCounts {
    fast: u64,
    block: u64,
    slow: u64,
    hole: u64,
}

impl BlockCounts {
    // Counts a block that lies on this tier, or in a hole.
    fn add(&mut self, tier: Option<Tier>) {
        match tier {
            Some(Tier::Fast) => self.fast = self.fast.saturating_add(1),
            Some(Tier::Block) => self.block = self.block.saturating_add(1),
            Some(Tier::Slow) => self.slow = self.slow.saturating_add(1),
            None => self.hole = self.hole.saturating_add(1),
        }
    }
}

fn count_blocks(
    world: &mut World<MemMedia>,
    inode: u32,
    size: u64,
    text: &mut Text,
) -> BlockCounts {
    let mut counts = BlockCounts {
        fast: 0,
        block: 0,
        slow: 0,
        hole: 0,
    };
    for block in 0..size.div_ceil(BLOCK as u64) {
        match world.tier_of(inode, block) {
            Ok(tier) => counts.add(tier),
            Err(_) => text.cut(),
        }
    }
    counts
}
