ghost use Rattle.std.specs.Prelude.{◌≡◌, true, if◌then◌else◌};
ghost use Rattle.posix_calls.specs.Name.{is_name};
ghost use Rattle.file_graph.specs.Subject.{one_or_two};
ghost use Rattle.file_graph.specs.declared.effect.Effect.TheVariants as effect;
ghost use Rattle.file_graph.specs.Graph.{subjects};
ghost use Rattle.log_record.specs.Outcome.{Gives, owned_effect};
ghost use Rattle.log_record.specs.Grammar.{fits, is_write};

use crate::format::RecordError;
use file_graph::{Effect, Kind, is_inode};
use posix_calls::{MAX_FILE, MAX_NAMES, MAX_TRANSFER, Name, SharedBytes};
use std::alloc::Global;

/// An effect whose name or bytes lie elsewhere.
#[derive(Clone, Copy)]
pub enum EffectRef<'a> {
    Make {
        inode: u32,
        kind: Kind,
    },
    Enter {
        directory: u32,
        inode: u32,
        kind: Kind,
        name: &'a [u8],
    },
    Leave {
        directory: u32,
        name: &'a [u8],
    },
    Names {
        inode: u32,
        names: u32,
    },
    Size {
        inode: u32,
        size: u64,
    },
    Bytes {
        inode: u32,
        at: u64,
        bytes: &'a [u8],
    },
    Drop {
        inode: u32,
    },
    Swap {
        directory: u32,
        name: &'a [u8],
        other: u32,
        other_name: &'a [u8],
    },
}

impl EffectRef<'_> {
    /// Whether it keeps the limits of the format.
    pub fn fits(&self) -> bool
        ensures { result ≡ fits (owned_effect self.now) }
    {
        match *self {
            EffectRef::Make { inode, .. } => is_inode(inode),
            EffectRef::Enter {
                directory,
                inode,
                name,
                ..
            } => is_inode(directory) && is_inode(inode) && Name::is_valid(name),
            EffectRef::Leave { directory, name } => is_inode(directory) && Name::is_valid(name),
            EffectRef::Names { inode, names } => is_inode(inode) && names <= MAX_NAMES,
            EffectRef::Size { inode, size } => is_inode(inode) && size <= MAX_FILE,
            EffectRef::Bytes { inode, at, bytes } => is_inode(inode) && is_write(at, bytes.len()),
            EffectRef::Drop { inode } => is_inode(inode),
            EffectRef::Swap {
                directory,
                name,
                other,
                other_name,
            } => {
                is_inode(directory)
                    && Name::is_valid(name)
                    && is_inode(other)
                    && Name::is_valid(other_name)
            }
        }
    }

    /// The inodes that it changes: one, or the two directories of a Swap.
    pub fn subjects(&self) -> (u32, Option<u32>)
        ensures { subjects (owned_effect self.now) ≡ one_or_two result.0 result.1 }
    {
        match *self {
            EffectRef::Make { inode, .. } => (inode, None),
            EffectRef::Enter { directory, .. } => (directory, None),
            EffectRef::Leave { directory, .. } => (directory, None),
            EffectRef::Names { inode, .. } => (inode, None),
            EffectRef::Size { inode, .. } => (inode, None),
            EffectRef::Bytes { inode, .. } => (inode, None),
            EffectRef::Drop { inode } => (inode, None),
            EffectRef::Swap {
                directory,
                other,
                ..
            } => (directory, Some(other)),
        }
    }

    /// The effect with a copy of its name or bytes, where it keeps the limits.
    pub fn to_effect(&self, alloc: Global) -> Result<Effect, RecordError>
        ensures { Gives (λ e. e) result (if fits (owned_effect self.now) then Some (owned_effect self.now) else None) }
    {
        if !self.fits() {
            return Err(RecordError::NoRecord);
        }
        match *self {
            EffectRef::Make { inode, kind } => Ok(Effect::Make { inode, kind }),
            EffectRef::Enter {
                directory,
                inode,
                kind,
                name,
            } => match Name::from_vec(name.to_vec(alloc)?) {
                Ok(name) => Ok(Effect::Enter {
                    directory,
                    inode,
                    kind,
                    name,
                }),
                Err(_) => Err(RecordError::NoRecord),
            },
            EffectRef::Leave { directory, name } => match Name::from_vec(name.to_vec(alloc)?) {
                Ok(name) => Ok(Effect::Leave { directory, name }),
                Err(_) => Err(RecordError::NoRecord),
            },
            EffectRef::Names { inode, names } => Ok(Effect::Names { inode, names }),
            EffectRef::Size { inode, size } => Ok(Effect::Size { inode, size }),
            EffectRef::Bytes { inode, at, bytes } => {
                let bytes = SharedBytes::copy_of(alloc, bytes)?;
                Ok(Effect::Bytes { inode, at, bytes })
            }
            EffectRef::Drop { inode } => Ok(Effect::Drop { inode }),
            EffectRef::Swap {
                directory,
                name,
                other,
                other_name,
            } => own_swap(alloc, directory, name, other, other_name),
        }
    }
}

// A Swap with copies of its names.
fn own_swap(
    alloc: Global,
    directory: u32,
    name: &[u8],
    other: u32,
    other_name: &[u8],
) -> Result<Effect, RecordError>
    requires name { is_name name.now ≡ true }
    requires other_name { is_name other_name.now ≡ true }
    ensures { Gives (λ e. e) result (Some (effect.Swap directory name.now other other_name.now)) }
{
    let name = own_name(alloc, name)?;
    let other_name = own_name(alloc, other_name)?;
    Ok(Effect::Swap {
        directory,
        name,
        other,
        other_name,
    })
}

// A copy of a name.
fn own_name(alloc: Global, name: &[u8]) -> Result<Name, RecordError>
    requires { is_name name.now ≡ true }
    ensures { Gives (λ owned. owned) result (Some name.now) }
{
    match Name::from_vec(name.to_vec(alloc)?) {
        Ok(name) => Ok(name),
        Err(_) => Err(RecordError::NoRecord),
    }
}

/// The effect, lent.
pub fn lend(effect: &Effect) -> EffectRef<'_>
    ensures { owned_effect result ≡ effect.now }
{
    match effect {
        Effect::Make { inode, kind } => EffectRef::Make {
            inode: *inode,
            kind: *kind,
        },
        Effect::Enter {
            directory,
            inode,
            kind,
            name,
        } => EffectRef::Enter {
            directory: *directory,
            inode: *inode,
            kind: *kind,
            name: name.as_slice(),
        },
        Effect::Leave { directory, name } => EffectRef::Leave {
            directory: *directory,
            name: name.as_slice(),
        },
        Effect::Names { inode, names } => EffectRef::Names {
            inode: *inode,
            names: *names,
        },
        Effect::Size { inode, size } => EffectRef::Size {
            inode: *inode,
            size: *size,
        },
        Effect::Bytes { inode, at, bytes } => EffectRef::Bytes {
            inode: *inode,
            at: *at,
            bytes: bytes.as_slice(),
        },
        Effect::Drop { inode } => EffectRef::Drop { inode: *inode },
        Effect::Swap {
            directory,
            name,
            other,
            other_name,
        } => EffectRef::Swap {
            directory: *directory,
            name: name.as_slice(),
            other: *other,
            other_name: other_name.as_slice(),
        },
    }
}

// A write of some bytes that ends within the greatest file.
fn is_write(at: u64, count: usize) -> bool
    ensures { result ≡ is_write at count }
{
    1 <= count && count <= MAX_TRANSFER && at <= MAX_FILE && at + count as u64 <= MAX_FILE
}
