ghost use Rattle.std.specs.Prelude.{◌≡◌, ◌≤◌, length};
ghost use Rattle.layout.specs.Answers.{or_damaged};
ghost use Rattle.layout.specs.Places.{slot_block};
ghost use Rattle.layout.specs.Slot.{slot_fields, slot_spelling, slot_from, slot_of, fits_slot, is_root_block, roots_apart};
ghost use Rattle.layout.specs.declared.error.What.TheVariants as what;

use crate::error::{LayoutError, What};
use crate::geometry::Geometry;
use crate::places::{SLOT_SIZE, slot_block};
use crate::slot_fields::SlotFields;
use file_graph::{DIRECTORY_KIND, FILE_KIND};
use posix_calls::{MAX_ENTRIES, MAX_FILE, MAX_INODE, MAX_NAMES};

/// What the slot of an inode holds. A root is the extent block that maps a tier's blocks, or 0 where there is none.
#[derive(Clone, Copy, Debug, PartialEq, Eq)]
pub enum Slot {
    /// No node.
    Free,
    /// A file: how many names it has, its size in bytes, the number of its last touch, and its roots.
    File {
        names: u32,
        size: u64,
        touch: u64,
        fast: u32,
        block: u32,
        slow: u32,
    },
    /// A directory: how many names and how many entries it has, the number of its last touch, and the root of its directory
    /// blocks.
    Directory {
        names: u32,
        entries: u64,
        touch: u64,
        root: u32,
    },
}

impl Slot {
    /// Writes the slot over the bytes of one.
    pub fn encode(&self, bytes: &mut [u8])
        requires { length bytes.old ≡ SLOT_SIZE }
        ensures { bytes.new ≡ slot_spelling self.now }
    {
        self.fields().write(bytes);
    }

    /// The slot that the bytes of an inode's slot spell; `Damaged` where they spell none.
    pub fn decode(geometry: &Geometry, inode: u32, bytes: &[u8]) -> Result<Self, LayoutError>
        requires low { 1 ≤ inode }
        requires high { inode ≤ MAX_INODE }
        ensures { result ≡ or_damaged what.Slot (slot_block inode) (slot_of geometry.now bytes.now) }
    {
        match slot_of(geometry, bytes) {
            Some(found) => Ok(found),
            None => Err(LayoutError::Damaged {
                what: What::Slot,
                block: slot_block(inode),
            }),
        }
    }

    fn fields(&self) -> SlotFields
        ensures { result ≡ slot_fields self.now }
    {
        match *self {
            Slot::Free => SlotFields {
                kind: 0,
                names: 0,
                size: 0,
                touch: 0,
                fast: 0,
                block: 0,
                slow: 0,
            },
            Slot::File {
                names,
                size,
                touch,
                fast,
                block,
                slow,
            } => SlotFields {
                kind: FILE_KIND as u32,
                names,
                size,
                touch,
                fast,
                block,
                slow,
            },
            Slot::Directory {
                names,
                entries,
                touch,
                root,
            } => SlotFields {
                kind: DIRECTORY_KIND as u32,
                names,
                size: entries,
                touch,
                fast: root,
                block: 0,
                slow: 0,
            },
        }
    }

    // Whether it keeps the limits of the format.
    fn fits(self, geometry: &Geometry) -> bool
        ensures { result ≡ fits_slot geometry.now self }
    {
        match self {
            Slot::Free => true,
            Slot::File {
                names,
                size,
                touch: _,
                fast,
                block,
                slow,
            } => {
                names <= MAX_NAMES
                    && size <= MAX_FILE
                    && is_root_block(geometry, fast)
                    && is_root_block(geometry, block)
                    && is_root_block(geometry, slow)
                    && roots_apart(fast, block)
                    && roots_apart(fast, slow)
                    && roots_apart(block, slow)
            }
            Slot::Directory {
                names,
                entries,
                touch: _,
                root,
            } => {
                names <= MAX_NAMES && entries <= MAX_ENTRIES as u64 && is_root_block(geometry, root)
            }
        }
    }
}

fn is_root_block(geometry: &Geometry, root: u32) -> bool
    ensures { result ≡ is_root_block geometry.now root }
{
    root == 0 || geometry.is_node(root)
}

// Whether two roots are not the same block.
fn roots_apart(one: u32, other: u32) -> bool
    ensures { result ≡ roots_apart one other }
{
    one == 0 || one != other
}

#[tactic(auto, unfolding(crate::specs::Slot::slot_from))]
fn slot_from(fields: SlotFields) -> Option<Slot>
    ensures { result ≡ slot_from fields }
{
    if fields.is_blank() {
        return Some(Slot::Free);
    }
    if fields.kind == FILE_KIND as u32 {
        return Some(Slot::File {
            names: fields.names,
            size: fields.size,
            touch: fields.touch,
            fast: fields.fast,
            block: fields.block,
            slow: fields.slow,
        });
    }
    if fields.kind == DIRECTORY_KIND as u32 && fields.block == 0 && fields.slow == 0 {
        return Some(Slot::Directory {
            names: fields.names,
            entries: fields.size,
            touch: fields.touch,
            root: fields.fast,
        });
    }
    None
}

#[tactic(auto, unfolding(crate::specs::Slot::slot_of))]
fn slot_of(geometry: &Geometry, bytes: &[u8]) -> Option<Slot>
    ensures { result ≡ slot_of geometry.now bytes.now }
{
    let fields = SlotFields::read(bytes)?;
    let found = slot_from(fields)?;
    if !found.fits(geometry) {
        return None;
    }
    Some(found)
}
