// The calls that take or give a descriptor: open, close, pread, pwrite.
ghost use Rattle.std.specs.Prelude.{◌≡◌, ◌≢◌, ◌<◌, ◌≤◌, ◌&&◌, ◌+◌, ◌^◌, nat_lt, is_some, true, false, Some, Err, IfOk};
ghost use Rattle.posix_calls.specs.FirstName.{comes_to_name};
ghost use Rattle.posix_calls.specs.Memory.{reads_bytes, writes_bytes};
ghost use Rattle.posix_calls.specs.Walk.{is_there, is_root};
ghost use Rattle.posix_calls.specs.declared.descriptor.Descriptor.{Descriptor};
ghost use Rattle.posix_calls.specs.declared.operation.DecideError.TheVariants.{Memory};
ghost use Rattle.posix_calls.specs.Part.{Part, blocks_missing};
ghost use Rattle.posix_calls.specs.Answers.{IsAnswer};
ghost use Rattle.posix_calls.specs.Own.{own_of};
ghost use Rattle.posix_calls.specs.declared.limits.TheConstants.{MAX_DESCRIPTORS, MAX_TRANSFER};
ghost use Rattle.posix_calls.specs.Decide.{is_senseless, number_or, lowest_free, open_inode, empties, open_path, open_at, close, bytes_from, pread, write_at, pwrite};

use crate::bytes::Bytes;
use crate::call::{Flags, Reply};
use crate::errno::Errno;
use crate::limits::{MAX_FILE, MAX_TRANSFER, UNIT_BYTES};
use crate::operation::{DecideError, Missing, Operation};
use crate::own::OwnDescriptors;
use crate::path::Path;
use crate::shared_bytes::SharedBytes;
use crate::tree_answers::{TreeAnswers, known_or_missing};
use crate::walk::{Landing, kind_at, location, prefix, read_path, refuse_if};
use std::alloc::Global;

impl Flags {
    // Whether they ask for what makes no sense.
    fn is_senseless(self) -> bool
        ensures { result ≡ is_senseless self }
    {
        (self.truncate && !self.write)
            || (self.exclusive && !self.create)
            || (!self.read && !self.write)
    }

    // Whether the name must not be taken, and is.
    fn is_taken(self, to: Landing) -> bool
        ensures { result ≡ (self.create && self.exclusive && is_there to.inode) }
    {
        self.create && self.exclusive && to.is_there()
    }
}

// The lowest number that is free.
fn free_number(own: &OwnDescriptors) -> Result<u32, DecideError>
    ensures answer { (p : Part) → IsAnswer p (number_or (lowest_free (own_of own.now) 0 MAX_DESCRIPTORS)) result }
    ensures memory { result ≢ Err Memory }
{
    match own.lowest_free() {
        Some(number) => Ok(number),
        None => Err(DecideError::Refused {
            errno: Errno::TooManyOpen,
        }),
    }
}

// Whether there are bytes to take away.
fn empties<T: TreeAnswers>(tree: &T, truncate: bool, inode: u32) -> Result<bool, DecideError>
    ensures answer { IsAnswer (T.part tree.now) (empties truncate inode) result }
    ensures memory { result ≢ Err Memory }
{
    if !truncate {
        return Ok(false);
    }
    let size = known_or_missing(tree.file_size(inode), Missing::Node { inode })?;
    Ok(size > 0)
}

// Decides `open`: the errors in their order, then the operation.
pub(crate) fn open<T: TreeAnswers>(
    alloc: Global,
    tree: &T,
    own: &OwnDescriptors,
    bytes: &[u8],
    flags: Flags,
) -> Result<Operation, DecideError>
    ensures answer { IsAnswer (T.part tree.now) (open_path (own_of own.now) bytes.now flags) result }
    ensures memory { result ≡ Err Memory → comes_to_name bytes.now ≡ true }
{
    let path = read_path(alloc, bytes)?;
    open_at(alloc, tree, own, &path, flags)
}

// What follows once the path is read.
fn open_at<T: TreeAnswers>(
    alloc: Global,
    tree: &T,
    own: &OwnDescriptors,
    path: &Path,
    flags: Flags,
) -> Result<Operation, DecideError>
    ensures answer { IsAnswer (T.part tree.now) (open_at (own_of own.now) path.now flags) result }
    ensures memory { result ≡ Err Memory → is_root path.now ≡ false }
{
    refuse_if(flags.is_senseless(), Errno::Invalid)?;
    let descriptor = free_number(own)?;
    let to = prefix(tree, path)?;
    refuse_if(flags.is_taken(to), Errno::Exists)?;
    let is_dir = kind_at(tree, to)?;
    refuse_if(is_dir, Errno::IsDirectory)?;
    let Some(inode) = to.inode else {
        refuse_if(!flags.create, Errno::NoEntry)?;
        refuse_if(to.is_full(), Errno::NoSpace)?;
        let at = location(alloc, to.parent, path)?;
        return Ok(Operation::NewFile {
            at,
            descriptor,
            reads: flags.read,
            writes: flags.write,
        });
    };
    let empties = empties(tree, flags.truncate, inode)?;
    Ok(Operation::OpenFile {
        inode,
        empties,
        descriptor,
        reads: flags.read,
        writes: flags.write,
    })
}

// The inode that is open at a number.
fn open_inode(own: &OwnDescriptors, number: u32) -> Result<u32, DecideError>
    ensures answer { (p : Part) → IsAnswer p (open_inode (λ d. true) (own_of own.now number)) result }
    ensures memory { result ≢ Err Memory }
{
    match own.get(number) {
        Some(descriptor) => Ok(descriptor.inode),
        None => Err(DecideError::Refused {
            errno: Errno::BadDescriptor,
        }),
    }
}

// The inode that is open at a number for reading.
fn readable_inode(own: &OwnDescriptors, number: u32) -> Result<u32, DecideError>
    ensures answer { (p : Part) → IsAnswer p (open_inode (λ d. d.reads) (own_of own.now number)) result }
    ensures memory { result ≢ Err Memory }
    ensures open { IfOk result (λ inode. (d : Descriptor) × (own_of own.now number ≡ Some d) × (d.reads ≡ true) × (d.inode ≡ inode)) }
{
    let Some(descriptor) = own.get(number) else {
        return Err(DecideError::Refused {
            errno: Errno::BadDescriptor,
        });
    };
    refuse_if(!descriptor.reads, Errno::BadDescriptor)?;
    Ok(descriptor.inode)
}

// The inode that is open at a number for writing.
fn writable_inode(own: &OwnDescriptors, number: u32) -> Result<u32, DecideError>
    ensures answer { (p : Part) → IsAnswer p (open_inode (λ d. d.writes) (own_of own.now number)) result }
    ensures memory { result ≢ Err Memory }
    ensures open { IfOk result (λ inode. (d : Descriptor) × (own_of own.now number ≡ Some d) × (d.writes ≡ true) × (d.inode ≡ inode)) }
{
    let Some(descriptor) = own.get(number) else {
        return Err(DecideError::Refused {
            errno: Errno::BadDescriptor,
        });
    };
    refuse_if(!descriptor.writes, Errno::BadDescriptor)?;
    Ok(descriptor.inode)
}

// Decides `close`. Takes no memory.
pub(crate) fn close(own: &OwnDescriptors, number: u32) -> Result<Operation, DecideError>
    ensures answer { (p : Part) → IsAnswer p (close (own_of own.now) number) result }
    ensures memory { result ≢ Err Memory }
{
    let inode = open_inode(own, number)?;
    Ok(Operation::CloseFile {
        inode,
        descriptor: number,
    })
}

// Decides `pread`, and reads the bytes. Takes memory only where there are bytes to read.
pub(crate) fn pread<T: TreeAnswers>(
    alloc: Global,
    tree: &T,
    own: &OwnDescriptors,
    number: u32,
    at: u64,
    count: u64,
) -> Result<Operation, DecideError>
    ensures answer { IsAnswer (T.part tree.now) (pread (own_of own.now) number at count) result }
    ensures memory { result ≡ Err Memory → reads_bytes (T.part tree.now) (own_of own.now number) at count ≡ true }
{
    let inode = readable_inode(own, number)?;
    refuse_if(count > MAX_TRANSFER as u64, Errno::Invalid)?;
    let size = known_or_missing(tree.file_size(inode), Missing::Node { inode })?;
    let bytes = bytes_from(alloc, tree, inode, at, count.min(size.saturating_sub(at)))?;
    Ok(Operation::Tell {
        answer: Reply::Read { bytes },
    })
}

// `count` bytes of a file from byte `at` on, all of which there are.
fn bytes_from<T: TreeAnswers>(
    alloc: Global,
    tree: &T,
    inode: u32,
    at: u64,
    count: u64,
) -> Result<Bytes, DecideError>
    requires some { at + count < 2 ^ 64 }
    requires few { count ≤ MAX_TRANSFER }
    ensures answer { IsAnswer (T.part tree.now) (bytes_from inode at count) result }
    ensures memory { result ≡ Err Memory → (0 < count) × (is_some ((T.part tree.now).bytes inode at count) ≡ true) }
{
    if count == 0 {
        return Ok(Bytes::from_vec(Vec::new(alloc)));
    }
    let answer = tree.read(alloc, inode, at, count)?;
    known_or_missing(answer, blocks_missing(inode, at, count))
}

// The blocks that a range of the bytes of a file touches.
fn blocks_missing(inode: u32, at: u64, count: u64) -> Missing
    requires some { at + count < 2 ^ 64 }
    requires few { count ≤ MAX_TRANSFER }
    requires any { 0 < count }
    ensures { result ≡ blocks_missing inode at count }
{
    let first = at / UNIT_BYTES as u64;
    let last = (at + (count - 1)) / UNIT_BYTES as u64;
    Missing::Blocks {
        inode,
        first,
        count: (1 + last - first) as u32,
    }
}

// Decides `pwrite`. Takes memory only where there are bytes to write.
pub(crate) fn pwrite(
    own: &OwnDescriptors,
    number: u32,
    at: u64,
    bytes: &SharedBytes,
) -> Result<Operation, DecideError>
    ensures answer { (p : Part) → IsAnswer p (pwrite (own_of own.now) number at bytes.now) result }
    ensures memory { result ≡ Err Memory → writes_bytes (own_of own.now number) at bytes.now ≡ true }
{
    let inode = writable_inode(own, number)?;
    let len = bytes.len();
    refuse_if(len > MAX_TRANSFER, Errno::Invalid)?;
    if len == 0 {
        return Ok(Operation::Tell {
            answer: Reply::Wrote { count: 0 },
        });
    }
    refuse_if(ends_behind(at, len), Errno::FileTooBig)?;
    let bytes = bytes.share()?;
    Ok(Operation::Write { inode, at, bytes })
}

// Whether `count` bytes from an offset on end behind the greatest size of a file.
fn ends_behind(at: u64, count: usize) -> bool
    ensures { result ≡ nat_lt MAX_FILE (at + count) }
{
    match at.checked_add(count as u64) {
        Some(end) => end > MAX_FILE,
        None => true,
    }
}
