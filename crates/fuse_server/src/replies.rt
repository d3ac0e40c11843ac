// What is answered, as the messages of the protocol carry it.
ghost use Rattle.std.specs.Prelude.{◌≡◌, ◌+◌, ◌<◌, ◌≤◌, length, OnOk, IsOk, vec_capacity};
ghost use Rattle.posix_calls.specs.declared.errno.Errno.TheVariants as errno;
ghost use Rattle.posix_calls.specs.declared.limits.TheConstants.{MAX_FILE};
ghost use Rattle.fuse_wire.specs.declared.errno.Refusal.TheVariants as refusal;
ghost use Rattle.fuse_wire.specs.Errno.{refusal_number};
ghost use Rattle.fuse_wire.specs.Replies.{error_bytes, reply_bytes};
ghost use Rattle.fuse_server.specs.Answers.{IsReply};
ghost use Rattle.fuse_server.specs.Listings.{CarriesEntries, CarriesListing, entries_from, listing_at};
ghost use Rattle.fuse_server.specs.Replies.{Carries, HasRoom, attr_of, entry_of, mode_of, stat_fs_of};

use crate::answer::Answer;
use crate::listings::Listing;
use crate::server::Server;
use fuse_wire::{
    Attr, Entry, Header, OpenFile, Refusal, StatFs, Time, write_absence, write_attr, write_count,
    write_create, write_data, write_dirents, write_empty, write_entry, write_error, write_init,
    write_open, write_statfs,
};
use mount_nodes::{Attributes, Usage};
use posix_calls::{Errno, MAX_FILE, MAX_INODE, MAX_NAME, UNIT_BYTES};
use std::alloc::AllocError;

/// How long the kernel may keep a reply: for as long as the mount lasts, since nothing else changes the tree.
const FOR_EVER: Time = Time {
    seconds: 1_000_000,
    nanoseconds: 0,
};

/// The flag of an opened file by which the kernel keeps what it has of it (`FOPEN_KEEP_CACHE`).
const KEEP_CACHE: u32 = 2;

/// The bits of a mode that say that it is one of a directory, or of a file.
const DIR: u32 = 0o40000;

const FILE: u32 = 0o100000;

/// All others of them.
const RIGHTS: u32 = 0o1000;

/// The bytes of a unit.
const UNIT: u32 = UNIT_BYTES;

impl Server {
    /// Writes the reply that carries an answer.
    pub(crate) fn write_answer(
        &self,
        header: &Header,
        answer: &Answer,
        reply: &mut Vec<u8>,
    ) -> Result<(), AllocError>
        ensures reply { OnOk result (IsReply header.now.unique reply.new.items) }
        ensures carried { OnOk result (Carries self.now header.now answer.now reply.new.items) }
        ensures room { HasRoom (vec_capacity reply.old) answer.now → IsOk result }
    {
        let unique = header.unique;
        match answer {
            Answer::Done => write_empty(reply, unique),
            Answer::Refused(refusal) => write_refusal(reply, unique, *refusal),
            Answer::Agreed(agreed) => write_init(reply, unique, agreed),
            Answer::Absence => write_absence(reply, unique, FOR_EVER),
            Answer::Data(bytes) => write_bytes(reply, unique, bytes.as_slice()),
            Answer::Count(count) => write_count(reply, unique, *count),
            Answer::Opened(handle) => write_open(reply, unique, &open_file(*handle)),
            Answer::Usage(usage) => write_statfs(reply, unique, &stat_fs(*usage)),
            Answer::Entries { handle, at, size } => {
                self.write_entries(unique, (*handle, *at, *size), reply)
            }
            Answer::Entry(attributes) => write_entry(reply, unique, &self.entry(attributes)),
            Answer::Attributes(attributes) => {
                write_attr(reply, unique, FOR_EVER, &self.attr(attributes))
            }
            Answer::Created(attributes) => {
                write_create(reply, unique, &self.entry(attributes), &open_file(0))
            }
        }
    }

    fn write_entries(
        &self,
        unique: u64,
        asked: (u64, u64, u32),
        reply: &mut Vec<u8>,
    ) -> Result<(), AllocError>
        ensures reply { OnOk result (IsReply unique reply.new.items) }
        ensures carries { OnOk result (CarriesListing self.now.tables.nodes (listing_at self.now.listings.items asked.0) unique asked.1 asked.2 reply.new.items) }
    {
        let (handle, at, size) = asked;
        match self.listing_under(handle) {
            Some(listing) => self.write_listing(unique, listing, (at, size), reply),
            None => write_refusal(reply, unique, Refusal::Posix(Errno::BadDescriptor)),
        }
    }

    // The entries of a directory that is open, from a place on, as many as `size` bytes hold.
    fn write_listing(
        &self,
        unique: u64,
        listing: &Listing,
        asked: (u64, u32),
        reply: &mut Vec<u8>,
    ) -> Result<(), AllocError>
        ensures reply { OnOk result (IsReply unique reply.new.items) }
        ensures carries { OnOk result (CarriesEntries unique asked.1 (entries_from self.now.tables.nodes listing.now asked.0 asked.1) reply.new.items) }
    {
        let (at, size) = asked;
        let entries = self.entries(listing, at, size)?;
        write_dirents(reply, unique, size, &entries)?;
        Ok(())
    }

    fn entry(&self, attributes: &Attributes) -> Entry
        ensures { result ≡ entry_of self.now attributes.now }
    {
        Entry {
            node: attributes.node,
            generation: self.tables.times.generation(attributes.node),
            entry_valid: FOR_EVER,
            attr_valid: FOR_EVER,
            attr: self.attr(attributes),
        }
    }

    fn attr(&self, attributes: &Attributes) -> Attr
        ensures { result ≡ attr_of self.now attributes.now }
    {
        let times = self.tables.times.node_times(attributes.node);
        Attr {
            inode: attributes.node,
            size: attributes.size,
            blocks: attributes.size.div_ceil(512),
            accessed: times.accessed,
            modified: times.modified,
            changed: times.changed,
            mode: self.mode(attributes.is_dir),
            links: attributes.links,
            uid: self.owner.uid,
            gid: self.owner.gid,
            device: 0,
            block_size: UNIT,
        }
    }

    fn mode(&self, is_dir: bool) -> u32
        ensures { result ≡ mode_of self.now.owner is_dir }
    {
        if is_dir {
            return DIR + self.owner.dir_mode % RIGHTS;
        }
        FILE + self.owner.file_mode % RIGHTS
    }
}

/// Writes the reply that refuses a request.
pub(crate) fn write_refusal(
    reply: &mut Vec<u8>,
    unique: u64,
    refusal: Refusal,
) -> Result<(), AllocError>
    ensures reply { OnOk result (IsReply unique reply.new.items) }
    ensures refused { OnOk result (reply.new.items ≡ error_bytes unique (refusal_number refusal)) }
    ensures room { 272 ≤ vec_capacity reply.old → IsOk result }
{
    write_error(reply, unique, refusal)
}

// No file has more bytes than the greatest.
fn write_bytes(reply: &mut Vec<u8>, unique: u64, bytes: &[u8]) -> Result<(), AllocError>
    ensures reply { OnOk result (IsReply unique reply.new.items) }
    ensures bytes { length bytes.now ≤ MAX_FILE → OnOk result (reply.new.items ≡ reply_bytes unique bytes.now) }
    ensures room { 272 ≤ vec_capacity reply.old → 16 + length bytes.now ≤ vec_capacity reply.old → IsOk result }
    ensures long { MAX_FILE < length bytes.now → OnOk result (reply.new.items ≡ error_bytes unique (refusal_number (refusal.Posix errno.IoError))) }
{
    if bytes.len() as u64 > MAX_FILE {
        return write_refusal(reply, unique, Refusal::Posix(Errno::IoError));
    }
    write_data(reply, unique, bytes)
}

fn open_file(handle: u64) -> OpenFile
    ensures { result ≡ record { handle = handle; flags = 2 } }
{
    OpenFile {
        handle,
        flags: KEEP_CACHE,
    }
}

fn stat_fs(usage: Usage) -> StatFs
    ensures { result ≡ stat_fs_of usage }
{
    StatFs {
        blocks: usage.units,
        blocks_free: usage.free,
        blocks_available: usage.free,
        files: MAX_INODE as u64,
        files_free: usage.free_nodes,
        block_size: UNIT,
        name_len: MAX_NAME as u32,
    }
}
