// Directories are read as they were when they were opened.
ghost use Rattle.std.specs.Prelude.{◌≡◌, ◌+◌, ◌^◌, ◌<◌, ◌≤◌, ℕ, Some, None, IsSome, IfOk, OnOk, OnErr, if◌then◌else◌, length, map, slice_get};
ghost use Rattle.std.specs.Option.{option_map};
ghost use Rattle.fuse_server.specs.Listings.{ClosesListing, OpensDir, SameBeside, all_entries, dir_entry, entries_from, folder_above, folder_entry, kind_of, listing_at, named_entry};

use crate::server::Server;
use fuse_wire::{Dirent, DirentKind, Refusal};
use mount_nodes::{Nodes, Tree, first_name, list, path_of};
use posix_calls::{Name, Names};
use std::alloc::AllocError;

/// The number in an entry whose node is not known.
const UNKNOWN_NODE: u64 = 0xFFFF_FFFF;

/// The least bytes that an entry takes in a reply.
const LEAST_LEN: u64 = 32;

/// The names that a directory had when it was opened.
#[derive(Drop)]
pub struct Listing {
    folder: u64,
    names: Names,
}

impl Server {
    /// Opens a directory, and answers its handle. Where it is refused, nothing changes.
    pub(crate) fn open_dir<T: Tree>(&mut self, tree: &mut T, id: u64) -> Result<u64, Refusal>
        ensures opens { OpensDir T.Tree self.old.tables.nodes id self.old.listings.items self.new.listings.items result tree.old tree.new }
        ensures tables { self.new.tables ≡ self.old.tables }
    {
        let alloc = self.tables.alloc;
        let path = path_of(alloc, &self.tables.nodes, id)?;
        let names = list(alloc, tree, &path)?;
        let handle = self.free_handle();
        put_listing(&mut self.listings, handle, Listing { folder: id, names })?;
        Ok(handle as u64)
    }

    // The lowest handle under which no directory is open.
    fn free_handle(&self) -> usize
        ensures free { listing_at self.now.listings.items result ≡ None }
        ensures lowest { (lower : ℕ) → lower < result → IsSome (listing_at self.now.listings.items lower) }
        ensures place { result ≤ length self.now.listings.items }
    {
        for handle in 0..self.listings.len() {
            let Some(_) = self.listing_under(handle as u64) else {
                return handle;
            };
        }
        self.listings.len()
    }

    /// The directory that is open under a handle.
    pub(crate) fn listing_under(&self, handle: u64) -> Option<&Listing>
        ensures { option_map (λ listing. listing.now) result ≡ listing_at self.now.listings.items handle }
    {
        match self.listings.get(handle as usize) {
            Some(place) => place.as_ref(),
            None => None,
        }
    }

    /// Closes a directory.
    pub(crate) fn release_dir(&mut self, handle: u64)
        ensures closes { ClosesListing self.old.listings.items self.new.listings.items handle }
        ensures tables { self.new.tables ≡ self.old.tables }
    {
        close_listing(&mut self.listings, handle as usize);
    }

    /// The entries of an open directory from a place on, as many as a reply of `size` bytes may hold: itself and the directory above
    /// it first.
    pub(crate) fn entries<'a>(
        &'a self,
        listing: &'a Listing,
        at: u64,
        size: u32,
    ) -> Result<Vec<Dirent<'a>>, AllocError>
        ensures { IfOk result (λ entries. map dir_entry entries.items ≡ entries_from self.now.tables.nodes listing.now at size) }
    {
        let names = listing.names.as_slice();
        let end = names.len() as u64 + 2;
        let count = end.saturating_sub(at).min(size as u64 / LEAST_LEN);
        let mut entries = Vec::new(self.tables.alloc);
        for place in 0..count {
            entries.push(entry_at(&self.tables.nodes, listing, at + place))?;
        }
        Ok(entries)
    }
}

// Puts a directory under a handle that has a place, or under the next one.
fn put_listing(
    listings: &mut Vec<Option<Listing>>,
    handle: usize,
    listing: Listing,
) -> Result<(), AllocError>
    requires { handle ≤ length listings.old.items }
    ensures put { OnOk result (listing_at listings.new.items handle ≡ Some listing) }
    ensures others { OnOk result (SameBeside listings.old.items listings.new.items handle) }
    ensures refused { OnErr result (listings.new.items ≡ listings.old.items) }
{
    if handle < listings.len() {
        listings[handle] = Some(listing);
        return Ok(());
    }
    listings.push(Some(listing))?;
    Ok(())
}

// Closes the directory that is open under a handle, if one is.
fn close_listing(listings: &mut Vec<Option<Listing>>, handle: usize)
    ensures closed { listing_at listings.new.items handle ≡ None }
    ensures others { SameBeside listings.old.items listings.new.items handle }
{
    if handle < listings.len() {
        listings[handle] = None;
    }
}

// The entry at a place of a directory that was opened.
fn entry_at<'a>(nodes: &'a Nodes, listing: &'a Listing, at: u64) -> Dirent<'a>
    requires inside { at < length listing.now.names + 2 }
    requires fits { at + 1 < 2 ^ 64 }
    ensures { slice_get (all_entries nodes.now listing.now) at ≡ Some (dir_entry result) }
{
    let next = at + 1;
    if at == 0 {
        return folder_entry(listing.folder, next, b".");
    }
    if at == 1 {
        return folder_entry(folder_above(nodes, listing.folder), next, b"..");
    }
    let names = listing.names.as_slice();
    let place = at as usize - 2;
    named_entry(nodes, listing.folder, next, &names[place])
}

// The directory above a node, which is the node itself where no name of it is known.
fn folder_above(nodes: &Nodes, id: u64) -> u64
    ensures { result ≡ folder_above nodes.now id }
{
    match first_name(nodes, id) {
        Ok(known) => known.folder,
        Err(_) => id,
    }
}

fn folder_entry<'a>(inode: u64, next: u64, name: &'a [u8]) -> Dirent<'a>
    ensures { dir_entry result ≡ folder_entry inode next name.now }
{
    Dirent {
        inode,
        next,
        kind: DirentKind::Folder,
        name,
    }
}

fn named_entry<'a>(nodes: &Nodes, folder: u64, next: u64, name: &'a Name) -> Dirent<'a>
    ensures { dir_entry result ≡ named_entry nodes.now folder next name.now }
{
    let name = name.as_slice();
    match nodes.child(folder, name) {
        Some(id) => Dirent {
            inode: id,
            next,
            kind: kind_of(nodes, id),
            name,
        },
        None => Dirent {
            inode: UNKNOWN_NODE,
            next,
            kind: DirentKind::Unknown,
            name,
        },
    }
}

fn kind_of(nodes: &Nodes, id: u64) -> DirentKind
    ensures { result ≡ kind_of nodes.now id }
{
    match nodes.get(id) {
        Some(node) => folder_or_file(node.is_dir),
        None => DirentKind::Unknown,
    }
}

fn folder_or_file(is_dir: bool) -> DirentKind
    ensures { result ≡ (if is_dir then DirentKind.Folder else DirentKind.File) }
{
    if is_dir {
        DirentKind::Folder
    } else {
        DirentKind::File
    }
}
