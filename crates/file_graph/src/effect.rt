ghost use Rattle.std.specs.Prelude.{◌≡◌, ◌==◌, None, false, length};
ghost use Rattle.file_graph.specs.Graph.{subjects};
ghost use Rattle.file_graph.specs.Plain.{is_swap};
ghost use Rattle.file_graph.specs.Subject.{one_or_two, subject};

use posix_calls::{Name, SharedBytes};
use std::marker::Model;

/// What a node is.
#[derive(Clone, Copy, Debug, PartialEq, Eq)]
pub enum Kind {
    File,
    Directory,
}

/// What a name of a directory names: an inode, and what is there. Contracts see it as the pair of both.
#[derive(Clone, Copy)]
pub struct Child {
    inode: u32,
    kind: Kind,
}

impl Model for Child {
    ghost use Rattle.std.specs.Prelude.{ℕ};
    ghost use Rattle.std.specs.Coded.{coded×, coded_ℕ};
    ghost use Rattle.file_graph.specs.declared.effect.Kind.{Kind};
    ghost use Rattle.file_graph.specs.Codes.{kind_code};

    ghost Value = { ℕ × Kind };

    ghost coded = { coded× coded_ℕ kind_code };

    ghost view = { λ c. (c.inode, c.kind) };

    ghost inverse = { λ c. record { inode = c.0; kind = c.1 } };
}

impl Child {
    /// An inode that is of this kind.
    pub fn new(inode: u32, kind: Kind) -> Self
        ensures { result ≡ (inode, kind) }
    {
        Child { inode, kind }
    }

    /// The inode.
    pub fn inode(&self) -> u32
        ensures { result ≡ self.now.0 }
    {
        self.inode
    }

    /// What is there.
    pub fn kind(&self) -> Kind
        ensures { result ≡ self.now.1 }
    {
        self.kind
    }
}

/// One change of one node, or of two names. On an inode that is no node, or of another kind, all but a Make and a Drop do nothing.
#[derive(Debug, Drop)]
pub enum Effect {
    /// An empty node with no names, in the place of what the inode was.
    Make {
        inode: u32,
        kind: Kind,
    },
    /// An entry of a directory, in the place of one of that name. The inode that is entered is not touched.
    Enter {
        directory: u32,
        inode: u32,
        kind: Kind,
        name: Name,
    },
    /// No entry of that name in a directory. Where there is none, nothing changes.
    Leave {
        directory: u32,
        name: Name,
    },
    /// How many names a node has.
    Names {
        inode: u32,
        names: u32,
    },
    /// A file cut or grown to a size in bytes; what is grown reads as zero.
    Size {
        inode: u32,
        size: u64,
    },
    /// Bytes of a file from an offset on. The file becomes as long as they need; a gap behind its old end reads as zero.
    Bytes {
        inode: u32,
        at: u64,
        bytes: SharedBytes,
    },
    /// No node.
    Drop {
        inode: u32,
    },
    /// Two names of directories change what they lead to. Unless both lead to something, nothing changes.
    Swap {
        directory: u32,
        name: Name,
        other: u32,
        other_name: Name,
    },
}

impl Effect {
    /// The inodes that it changes: one, or the two directories of a Swap, which may be one.
    pub fn subjects(&self) -> (u32, Option<u32>)
        ensures is { subjects self.now ≡ one_or_two result.0 result.1 }
        ensures first { subject self.now ≡ result.0 }
        ensures alone { result.1 ≡ None → is_swap self.now ≡ false }
    {
        match self {
            Effect::Make { inode, .. } => (*inode, None),
            Effect::Enter { directory, .. } => (*directory, None),
            Effect::Leave { directory, .. } => (*directory, None),
            Effect::Names { inode, .. } => (*inode, None),
            Effect::Size { inode, .. } => (*inode, None),
            Effect::Bytes { inode, .. } => (*inode, None),
            Effect::Drop { inode } => (*inode, None),
            Effect::Swap {
                directory,
                other,
                ..
            } => (*directory, Some(*other)),
        }
    }
}

/// Effects in their order. Contracts see them as their list.
#[derive(Debug, Drop)]
pub struct Effects {
    effects: Vec<Effect>,
}

impl Model for Effects {
    ghost use Rattle.std.specs.Prelude.{List};
    ghost use Rattle.file_graph.specs.declared.effect.Effect.{Effect};

    ghost Value = { List Effect };

    ghost view = { λ e. e.effects.items };
}

impl Effects {
    /// The effects of a vector, which it keeps.
    pub fn from_vec(effects: Vec<Effect>) -> Self
        ensures { result ≡ effects.items }
    {
        Effects { effects }
    }

    /// The vector of the effects, without a copy.
    pub fn into_vec(self) -> Vec<Effect>
        ensures { result.items ≡ self }
    {
        self.effects
    }

    /// The effects as a slice.
    pub fn as_slice(&self) -> &[Effect]
        ensures { result.now ≡ self.now }
    {
        &self.effects
    }

    /// How many effects there are.
    pub fn len(&self) -> usize
        ensures { result ≡ length self.now }
    {
        self.effects.len()
    }

    /// Whether there is none.
    pub fn is_empty(&self) -> bool
        ensures { result ≡ (length self.now == 0) }
    {
        self.effects.is_empty()
    }
}
