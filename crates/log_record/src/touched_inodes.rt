// Which inodes a record touches, read without its names and bytes.
ghost use Rattle.std.specs.Prelude.{◌≡◌, ◌++◌, ◌∷◌, ◌<◌, ◌≤◌, ◌+◌, ◌*◌, [], length, option_map};
ghost use Rattle.file_graph.specs.Subject.{one_or_two};
ghost use Rattle.log_record.specs.Grammar.{effect_at, effects_at, record_at, record_of};
ghost use Rattle.log_record.specs.Touches.{found_in_effect, found_in_effects, found_in_record, inodes_of};

use crate::format::MAX_EFFECTS;
use crate::record_reads::{fields_of, header_of};
use std::marker::Model;

// At most two for each effect.
const MOST: usize = 2 * MAX_EFFECTS as usize;

/// The inodes that a record touches, one for each of its effects, and two for a Swap, in their order.
#[derive(Drop)]
pub struct TouchedInodes {
    count: usize,
    inodes: [u32; MOST],
}

impl Model for TouchedInodes {
    ghost use Rattle.std.specs.Prelude.{◌≤◌, ℕ, List, take};

    ghost Value = { List ℕ };

    ghost view = { λ t. take t.count t.inodes };

    ghost invariant = { λ t. t.count ≤ 16 };
}

impl TouchedInodes {
    // None so far.
    fn none() -> Self
        ensures { result ≡ [] }
    {
        TouchedInodes {
            count: 0,
            inodes: [0; MOST],
        }
    }

    // One more.
    fn push(&mut self, inode: u32)
        requires { length self.old < 2 * MAX_EFFECTS }
        ensures { self.new ≡ self.old ++ inode ∷ [] }
    {
        self.inodes[self.count] = inode;
        self.count += 1;
    }

    // One more, or two.
    fn push_both(&mut self, inode: u32, other: Option<u32>)
        requires { length self.old + 2 ≤ 2 * MAX_EFFECTS }
        ensures { self.new ≡ self.old ++ one_or_two inode other }
    {
        self.push(inode);
        if let Some(other) = other {
            self.push(other);
        }
    }

    /// The inodes.
    pub fn as_slice(&self) -> &[u32]
        ensures { result.now ≡ self.now }
    {
        &self.inodes[..self.count]
    }
}

// The inodes that the effect at the front touches: one, or two.
#[tactic(auto, unfolding(crate::specs::Grammar::effect_at))]
fn effect_subjects(bytes: &[u8]) -> Option<((u32, Option<u32>), &[u8])>
    ensures { option_map (λ x. (one_or_two x.0.0 x.0.1, x.1.now)) result ≡ found_in_effect (effect_at bytes.now) }
{
    let (effect, rest) = fields_of(bytes)?;
    if !effect.fits() {
        return None;
    }
    Some((effect.subjects(), rest))
}

// Those that this number of effects touches.
fn subjects_of(count: u8, bytes: &[u8]) -> Option<(TouchedInodes, &[u8])>
    requires { count ≤ MAX_EFFECTS }
    ensures { option_map (λ x. (x.0, x.1.now)) result ≡ found_in_effects (effects_at count bytes.now) }
{
    let mut found = TouchedInodes::none();
    let mut rest = bytes;
    for _ in 0..count {
        let ((inode, other), after) = effect_subjects(rest)?;
        found.push_both(inode, other);
        rest = after;
    }
    Some((found, rest))
}

// Those that the record at the front touches.
#[tactic(auto, unfolding(crate::specs::Grammar::record_at))]
fn inodes_at_front(bytes: &[u8]) -> Option<(TouchedInodes, &[u8])>
    ensures { option_map (λ x. (x.0, x.1.now)) result ≡ found_in_record (record_at bytes.now) }
{
    let ((_, count), rest) = header_of(bytes)?;
    subjects_of(count, rest)
}

/// The inodes that the record touches which exactly these bytes spell; `None` where they spell none. It takes no memory.
pub fn read_touched_inodes(bytes: &[u8]) -> Option<TouchedInodes>
    ensures { result ≡ option_map inodes_of (record_of bytes.now) }
{
    let (found, rest) = inodes_at_front(bytes)?;
    if !rest.is_empty() {
        return None;
    }
    Some(found)
}
