ghost use Rattle.std.specs.Prelude.{◌≡◌, ◌≤◌, ◌+◌, length, option_map};
ghost use Rattle.layout.specs.Answers.{or_damaged};
ghost use Rattle.layout.specs.Bytes.{items_at, with_text};
ghost use Rattle.layout.specs.Marks.{mark_text, marks_spelling, mark_at, marks_at, marks_of};
ghost use Rattle.layout.specs.declared.error.What.TheVariants as what;

use crate::error::{LayoutError, What};
use crate::field_reads::are_zero;
use crate::field_writes::{clear, put_u32, put_u64};
use crate::image::Image;
use crate::places::{BLOCK, MARKS_BLOCK};
use file_graph::{u32_of, u64_of};
use posix_calls::MAX_CLIENTS;

/// How many clients have a mark.
pub const CLIENTS: usize = MAX_CLIENTS as usize;

/// The bytes of a mark.
pub const MARK_SIZE: usize = 16;

/// The byte of the number of digests.
pub const DIGESTS_AT: usize = 128;

/// How far a client's records are digested: this many records of a generation, and all of the generations before.
#[derive(Clone, Copy, Debug, PartialEq, Eq)]
pub struct Mark {
    pub generation: u64,
    pub done: u32,
}

/// The marks of the clients, the lowest client first, and the number of digests so far.
#[derive(Clone, Copy, Debug, PartialEq, Eq)]
pub struct Marks {
    pub clients: [Mark; CLIENTS],
    pub digests: u64,
}

impl Marks {
    /// Writes the marks over a block.
    pub fn encode(&self, block: &mut [u8])
        requires { length block.old ≡ BLOCK }
        ensures { block.new ≡ marks_spelling self.now }
    {
        clear(block);
        self.encode_into(block);
    }

    /// The marks that a block spells; `Damaged` where it spells none.
    pub fn decode(block: &[u8]) -> Result<Self, LayoutError>
        ensures { result ≡ or_damaged what.Marks MARKS_BLOCK (marks_of block.now) }
    {
        match marks_of(block) {
            Some(found) => Ok(found),
            None => Err(LayoutError::Damaged {
                what: What::Marks,
                block: MARKS_BLOCK,
            }),
        }
    }
}

impl Image for Marks {
    ghost use Rattle.layout.specs.Marks.{marks_spelling};

    ghost bytes = { marks_spelling };

    ghost fits = { λ _. Unit {0} };

    fn encode_into(&self, slot: &mut [u8]) {
        let marks = *self;
        for client in 0..CLIENTS {
            put_mark(slot, MARK_SIZE * client, marks.clients[client]);
        }
        put_u64(slot, DIGESTS_AT, marks.digests);
    }
}

fn put_mark(block: &mut [u8], at: usize, mark: Mark)
    requires { at + 16 ≤ length block.old }
    ensures { block.new ≡ with_text at (mark_text mark) block.old }
{
    put_u64(block, at, mark.generation);
    put_u32(block, at + 8, mark.done);
    put_u32(block, at + 12, 0);
}

#[tactic(auto, unfolding(crate::specs::Marks::marks_of))]
fn marks_of(block: &[u8]) -> Option<Marks>
    ensures { result ≡ marks_of block.now }
{
    if block.len() != BLOCK {
        return None;
    }
    let (found, rest) = fields_of(block)?;
    if !are_zero(rest) {
        return None;
    }
    Some(found)
}

#[tactic(auto, unfolding(crate::specs::Marks::marks_at))]
fn fields_of(bytes: &[u8]) -> Option<(Marks, &[u8])>
    ensures { option_map (λ x. (x.0, x.1.now)) result ≡ marks_at bytes.now }
{
    let (clients, rest) = clients_of(bytes)?;
    let (digests, rest) = u64_of(rest)?;
    Some((Marks { clients, digests }, rest))
}

fn clients_of(bytes: &[u8]) -> Option<([Mark; CLIENTS], &[u8])>
    ensures { option_map (λ x. (x.0, x.1.now)) result ≡ items_at mark_at CLIENTS bytes.now }
{
    let first = Mark {
        generation: 0,
        done: 0,
    };
    let mut clients = [first; CLIENTS];
    let mut rest = bytes;
    for client in 0..CLIENTS {
        let (mark, after) = mark_of(rest)?;
        clients[client] = mark;
        rest = after;
    }
    Some((clients, rest))
}

#[tactic(auto, unfolding(crate::specs::Marks::mark_at))]
fn mark_of(bytes: &[u8]) -> Option<(Mark, &[u8])>
    ensures { option_map (λ x. (x.0, x.1.now)) result ≡ mark_at bytes.now }
{
    let (generation, rest) = u64_of(bytes)?;
    let (done, rest) = u32_of(rest)?;
    let (gap, rest) = u32_of(rest)?;
    if gap != 0 {
        return None;
    }
    Some((Mark { generation, done }, rest))
}
