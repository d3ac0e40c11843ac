// Files are opened, read, written, resized and closed.
ghost use Rattle.std.specs.Prelude.{◌≡◌, ◌≤◌, ◌++◌, Some, None, IsSome, IfOk, IfErr, OnOk, OnErr, replicate};
ghost use Rattle.posix_calls.specs.declared.call.Call.TheVariants as call;
ghost use Rattle.mount_nodes.specs.Calls.{Answers, Asks, AtPath, MayAsk, description_of, done_of, read_of, wrote_of};
ghost use Rattle.mount_nodes.specs.Files.{Closes, DescribesAgain, Releases, Writes, handle_of};
ghost use Rattle.mount_nodes.specs.Paths.{node_at, path_of};
ghost use Rattle.mount_nodes.specs.Reads.{Reads, ReadsOn, readable_len};
ghost use Rattle.mount_nodes.specs.Sizes.{Resizes, ResizesUnnamed, SetsAttributes, WritesZeros, zeros_from};
ghost use Rattle.mount_nodes.specs.Times.{GoesOn, IsSet, IsTouched, IsWritten, Runs};

use crate::attributes::Attributes;
use crate::lookups::check_done;
use crate::paths::{is_unnamed, path_of};
use crate::tables::Tables;
use crate::tree::Tree;
use fuse_wire::{Refusal, SetAttr};
use posix_calls::{Bytes, Call, Errno, MAX_FILE, MAX_TRANSFER, Reply, SharedBytes};
use std::alloc::{AllocError, Global};

/// How many zeros are written at once.
const ZEROS: u64 = 4_096;

impl Tables {
    /// Notes that a file is open once more, and answers its handle. Its descriptor is taken where one is needed.
    pub fn open(&mut self, id: u64) -> Result<u64, Refusal>
        ensures handle { result ≡ handle_of (node_at self.old.nodes id) }
        ensures refused { OnErr result (self.new ≡ self.old) }
        ensures times { self.new.times ≡ self.old.times }
    {
        if self.node(id)?.is_dir {
            return Err(Refusal::Posix(Errno::IsDirectory));
        }
        self.count_open(id);
        Ok(0)
    }

    fn count_open(&mut self, id: u64)
        ensures { self.new.times ≡ self.old.times }
    {
        if let Some(node) = self.nodes.get_mut(id) {
            node.opens = node.opens.saturating_add(1);
        }
    }

    /// Notes that a file is open once less. With the last its descriptor goes.
    pub fn release<T: Tree>(&mut self, tree: &mut T, id: u64) -> Result<(), Refusal>
        ensures releases { Releases T.Tree self.old.nodes id result tree.old tree.new }
        ensures refused { OnErr result (self.new ≡ self.old) }
        ensures times { self.new.times ≡ self.old.times }
    {
        let node = self.node(id)?;
        let (opens, descriptor) = (node.opens, node.descriptor);
        if opens > 1 {
            self.set_opens(id, opens - 1);
            return Ok(());
        }
        self.set_opens(id, 0);
        self.close_last(tree, id, descriptor);
        self.nodes.drop_unused(id);
        Ok(())
    }

    fn set_opens(&mut self, id: u64, opens: u64)
        ensures { self.new.times ≡ self.old.times }
    {
        if let Some(node) = self.nodes.get_mut(id) {
            node.opens = opens;
        }
    }

    // Closes the descriptor of a node, if it has one.
    fn close_last<T: Tree>(&mut self, tree: &mut T, id: u64, descriptor: Option<u32>)
        ensures asked { Closes T.Tree descriptor tree.old tree.new }
        ensures times { self.new.times ≡ self.old.times }
    {
        if let Some(number) = descriptor {
            self.drop_descriptor(id);
            let _ = tree.call(Call::Close { descriptor: number });
        }
    }

    /// Up to `count` bytes of a file from an offset on: fewer where it ends.
    pub fn read<T: Tree>(
        &mut self,
        tree: &mut T,
        id: u64,
        at: u64,
        count: u32,
    ) -> Result<Bytes, Refusal>
        ensures asked { Reads T.Tree self.old.nodes id at count result tree.old tree.new }
        ensures times { self.new.times ≡ self.old.times }
    {
        let wanted = self.readable_len(id, at, count)?;
        let number = self.take_descriptor(tree, id)?;
        read_pieces(self.alloc, tree, number, at, wanted)
    }

    // How many bytes are to be read: of a file that lost its last name no more than the size that is kept of it.
    fn readable_len(&self, id: u64, at: u64, count: u32) -> Result<usize, Refusal>
        ensures len { IfOk result (λ len. readable_len self.now.nodes id at count ≡ Some len) }
        ensures unknown { IfErr result (λ e. node_at self.now.nodes id ≡ None) }
    {
        let node = self.node(id)?;
        match node.names.first() {
            Some(_) => Ok(count as usize),
            None => Ok(node.size.saturating_sub(at).min(count as u64) as usize),
        }
    }

    /// Writes bytes into a file from an offset on, and answers how many.
    #[tactic(auto, using(crate::proofs::TimeLemmas::runs_same))]
    pub fn write<T: Tree>(
        &mut self,
        tree: &mut T,
        id: u64,
        at: u64,
        bytes: &[u8],
    ) -> Result<u32, Refusal>
        ensures asked { Writes T.Tree self.old.nodes id at bytes.now result tree.old tree.new }
        ensures times { Runs self.old.times self.new.times }
        ensures written { OnOk result (IsWritten self.old.times self.new.times id) }
    {
        let number = self.take_descriptor(tree, id)?;
        let count = write_piece(self.alloc, tree, number, at, bytes)?;
        self.times.write(id);
        self.grow_to(id, at.saturating_add(count as u64));
        Ok(count)
    }

    // Notes that a file reaches as far as this at least.
    fn grow_to(&mut self, id: u64, end: u64)
        ensures { self.new.times ≡ self.old.times }
    {
        if let Some(node) = self.nodes.get_mut(id) {
            node.size = node.size.max(end);
        }
    }

    /// Sets what may be set of a node, which is a file's size and the node's times, and returns its attributes. Modes and owners stay.
    pub fn set_attributes<T: Tree>(
        &mut self,
        tree: &mut T,
        id: u64,
        set: SetAttr,
    ) -> Result<Attributes, Refusal>
        ensures asked { SetsAttributes T.Tree self.old.nodes id set.size result tree.old tree.new }
        ensures times { GoesOn self.old.times self.new.times }
        ensures written { IsSome set.size → OnOk result (IsTouched self.old.times self.new.times id) }
        ensures set { OnOk result (IsSet self.new.times id set.accessed set.modified) }
        ensures kept { set.size ≡ None → set.accessed ≡ None → set.modified ≡ None → self.new.times ≡ self.old.times }
    {
        let attributes = self.set_size_of(tree, id, set.size)?;
        self.times.set(id, set.accessed, set.modified);
        Ok(attributes)
    }

    // Sets a file's size, if one is given.
    #[tactic(auto, using(crate::proofs::TimeLemmas::runs_same))]
    fn set_size_of<T: Tree>(
        &mut self,
        tree: &mut T,
        id: u64,
        size: Option<u64>,
    ) -> Result<Attributes, Refusal>
        ensures asked { SetsAttributes T.Tree self.old.nodes id size result tree.old tree.new }
        ensures times { Runs self.old.times self.new.times }
        ensures kept { size ≡ None → self.new.times ≡ self.old.times }
        ensures written { IsSome size → OnOk result (IsWritten self.old.times self.new.times id) }
    {
        match size {
            Some(size) => self.resize(tree, id, size),
            None => self.describe(tree, id),
        }
    }

    #[tactic(auto, using(crate::proofs::TimeLemmas::runs_same))]
    fn resize<T: Tree>(&mut self, tree: &mut T, id: u64, size: u64) -> Result<Attributes, Refusal>
        ensures asked { Resizes T.Tree self.old.nodes id size result tree.old tree.new }
        ensures times { Runs self.old.times self.new.times }
        ensures written { OnOk result (IsWritten self.old.times self.new.times id) }
    {
        let kept = self.attributes(id)?;
        if is_unnamed(&self.nodes, id) {
            return self.resize_unnamed(tree, id, kept, size);
        }
        self.resize_named(tree, id, size)
    }

    #[tactic(auto, using(crate::proofs::TimeLemmas::runs_same))]
    fn resize_named<T: Tree>(
        &mut self,
        tree: &mut T,
        id: u64,
        size: u64,
    ) -> Result<Attributes, Refusal>
        ensures asked { AtPath (path_of self.old.nodes id) (λ path. MayAsk T.Tree (call.Truncate path size) done_of (λ _. MayAsk T.Tree (call.Stat path) description_of (DescribesAgain id))) result tree.old tree.new }
        ensures times { Runs self.old.times self.new.times }
        ensures written { OnOk result (IsWritten self.old.times self.new.times id) }
    {
        let path = path_of(self.alloc, &self.nodes, id)?;
        truncate(self.alloc, tree, &path, size)?;
        self.times.write(id);
        self.tell_known(tree, id, &path)
    }

    // No call resizes a file without a name. It grows by a zero at its new end; cut, it keeps zeros behind its new end, which are read by
    // nobody until it grows over them.
    #[tactic(auto, using(crate::proofs::TimeLemmas::runs_same))]
    fn resize_unnamed<T: Tree>(
        &mut self,
        tree: &mut T,
        id: u64,
        kept: Attributes,
        size: u64,
    ) -> Result<Attributes, Refusal>
        ensures asked { ResizesUnnamed T.Tree self.old.nodes id kept size result tree.old tree.new }
        ensures times { Runs self.old.times self.new.times }
        ensures written { OnOk result (IsWritten self.old.times self.new.times id) }
    {
        if size > MAX_FILE {
            return Err(Refusal::Posix(Errno::FileTooBig));
        }
        let number = self.take_descriptor(tree, id)?;
        let from = zeros_from(kept.size, size);
        write_zeros(self.alloc, tree, number, from, kept.size.max(size))?;
        self.times.write(id);
        self.set_size(id, size);
        Ok(Attributes {
            node: kept.node,
            is_dir: kept.is_dir,
            size,
            links: kept.links,
        })
    }

    fn set_size(&mut self, id: u64, size: u64)
        ensures { self.new.times ≡ self.old.times }
    {
        if let Some(node) = self.nodes.get_mut(id) {
            node.size = size;
        }
    }
}

fn truncate<T: Tree>(alloc: Global, tree: &mut T, path: &[u8], len: u64) -> Result<(), Refusal>
    ensures { MayAsk T.Tree (call.Truncate path.now len) done_of Answers result tree.old tree.new }
{
    let path = Bytes::copy_of(alloc, path)?;
    check_done(tree.call(Call::Truncate { path, len }))
}

// Reads as many bytes as are wanted from an offset on, piece by piece: fewer where the file ends.
fn read_pieces<T: Tree>(
    alloc: Global,
    tree: &mut T,
    number: u32,
    at: u64,
    wanted: usize,
) -> Result<Bytes, Refusal>
    ensures { ReadsOn T.Tree number at wanted result tree.old tree.new }
{
    let mut bytes = Vec::new(alloc);
    for turn in 0..wanted / MAX_TRANSFER + 1 {
        let count = wanted.saturating_sub(bytes.len()).min(MAX_TRANSFER);
        if count == 0 {
            return Ok(Bytes::from_vec(bytes));
        }
        let from = at.saturating_add(bytes.len() as u64);
        let piece = read_piece(tree, number, from, count)?;
        let len = piece.len();
        add_piece(&mut bytes, piece)?;
        if len < count {
            return Ok(Bytes::from_vec(bytes));
        }
    }
    Ok(Bytes::from_vec(bytes))
}

fn read_piece<T: Tree>(tree: &mut T, number: u32, at: u64, count: usize) -> Result<Bytes, Refusal>
    ensures { Asks T.Tree (call.Pread number at count) read_of Answers result tree.old tree.new }
{
    bytes_of(tree.call(Call::Pread {
        descriptor: number,
        at,
        count: count as u64,
    }))
}

fn bytes_of(reply: Reply) -> Result<Bytes, Refusal>
    ensures { result ≡ read_of reply }
{
    match reply {
        Reply::Read { bytes } => Ok(bytes),
        Reply::Failed { errno } => Err(Refusal::Posix(errno)),
        _ => Err(Refusal::Posix(Errno::IoError)),
    }
}

// Puts a piece behind what was read; the first is not copied.
fn add_piece(bytes: &mut Vec<u8>, piece: Bytes) -> Result<(), AllocError>
    ensures { OnOk result (bytes.new.items ≡ bytes.old.items ++ piece) }
{
    if bytes.is_empty() {
        *bytes = piece.into_vec();
    } else {
        bytes.extend_from_slice(piece.as_slice())?;
    }
    Ok(())
}

fn write_piece<T: Tree>(
    alloc: Global,
    tree: &mut T,
    number: u32,
    at: u64,
    bytes: &[u8],
) -> Result<u32, Refusal>
    ensures { MayAsk T.Tree (call.Pwrite number at bytes.now) wrote_of Answers result tree.old tree.new }
{
    let bytes = SharedBytes::copy_of(alloc, bytes)?;
    count_of(tree.call(Call::Pwrite {
        descriptor: number,
        at,
        bytes,
    }))
}

fn count_of(reply: Reply) -> Result<u32, Refusal>
    ensures { result ≡ wrote_of reply }
{
    match reply {
        Reply::Wrote { count } => Ok(count),
        Reply::Failed { errno } => Err(Refusal::Posix(errno)),
        _ => Err(Refusal::Posix(Errno::IoError)),
    }
}

// From where on a file without a name gets zeros where its size changes.
fn zeros_from(old: u64, new: u64) -> u64
    ensures { result ≡ zeros_from old new }
{
    if old < new {
        return new - 1;
    }
    new
}

// Writes zeros over what stands from an offset up to another.
fn write_zeros<T: Tree>(
    alloc: Global,
    tree: &mut T,
    number: u32,
    from: u64,
    to: u64,
) -> Result<(), Refusal>
    ensures { WritesZeros T.Tree number from to result tree.old tree.new }
{
    let mut at = from;
    for turn in 0..to.saturating_sub(from) / ZEROS + 1 {
        let count = to.saturating_sub(at).min(ZEROS);
        if count == 0 {
            return Ok(());
        }
        write_some_zeros(alloc, tree, number, at, count)?;
        at += count;
    }
    Ok(())
}

#[tactic(auto, using(crate::proofs::ZeroLemmas::some_zeros))]
fn write_some_zeros<T: Tree>(
    alloc: Global,
    tree: &mut T,
    number: u32,
    at: u64,
    count: u64,
) -> Result<u32, Refusal>
    requires { count ≤ 4096 }
    ensures { MayAsk T.Tree (call.Pwrite number at (replicate count 0)) wrote_of Answers result tree.old tree.new }
{
    let zeros = [0u8; ZEROS as usize];
    write_piece(alloc, tree, number, at, &zeros[..count as usize])
}
