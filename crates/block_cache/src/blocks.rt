ghost use Rattle.std.specs.Prelude.{◌≡◌, ◌==◌, [], length, option_map, is_some, ⊤, IfOk, IfSome, OnOk, OnErr};
ghost use Rattle.std.specs.Borrow.{sem, follows_so};
ghost use mathlib.Core.Option.{none};
ghost use Rattle.block_cache.specs.declared.bytes.TheConstants.{BLOCK_SIZE};
ghost use Rattle.block_cache.specs.CacheList.{IsCache, bytes_at, bytes_if_first, put_block as put_first, use_block, without_file};

use crate::bytes::{BLOCK_SIZE, BlockBytes};
use crate::span::{Span, clear_span, no_spans, widen_span};
use crate::span_drop::drop_kept;
use lru::LruCache;
use std::alloc::{AllocError, Global};
use std::marker::Model;
use std::num::NonZeroUsize;

/// The most blocks that a cache holds.
pub const MOST_BLOCKS: usize = 256;

/// Which block it is: of which file, and which one in the file.
#[derive(Clone, Copy, PartialEq, Eq, Hash)]
pub struct Place {
    pub inode: u32,
    pub block: u32,
}

/// Blocks of files, kept by the inode and the block's number in the file: at most 256, each of 4,096 bytes. Contracts see them
/// as a list, the one used last first.
#[derive(Drop)]
pub struct Blocks {
    alloc: Global,
    cache: LruCache<Place, BlockBytes>,
    // in which span the blocks of a file lie, by its inode
    spans: Vec<Option<Span>>,
}

impl Model for Blocks {
    ghost use Rattle.std.specs.Prelude.{◌≡◌, List};
    ghost use Rattle.block_cache.specs.declared.blocks.TheConstants.{MOST_BLOCKS};
    ghost use Rattle.block_cache.specs.CacheList.{Block};
    ghost use Rattle.block_cache.specs.Entries.{blocks_in};
    ghost use Rattle.block_cache.specs.Spans.{AreIn};

    ghost Value = { List Block };

    ghost view = { λ b. blocks_in b.cache.entries };

    ghost invariant = { λ b. (b.cache.cap ≡ MOST_BLOCKS) × AreIn b.spans.items b.cache.entries };
}

impl Blocks {
    ghost use Rattle.block_cache.specs.contracts.blocks.Blocks.{the_row};

    /// A cache that holds none.
    pub fn new(alloc: Global) -> Result<Self, AllocError>
        ensures { IfOk result (λ b. b ≡ []) }
    {
        let most = NonZeroUsize::new(MOST_BLOCKS).unwrap();
        let cache = LruCache::new(alloc, most)?;
        let spans = no_spans(alloc)?;
        Ok(Blocks {
            alloc,
            cache,
            spans,
        })
    }

    /// Puts a block in front, in place of what the cache had of it; past 256 blocks the last goes. Where there is no memory for it,
    /// the cache stays as it was.
    pub fn put(&mut self, inode: u32, block: u32, bytes: &[u8]) -> Result<(), AllocError>
        requires { length bytes.now ≡ BLOCK_SIZE }
        ensures put { OnOk result (self.new ≡ put_first inode block bytes.now self.old) }
        ensures refused { OnErr result (self.new ≡ self.old) }
    {
        // For the proof: no place is kept twice.
        let _ = self.cache.len();
        let copy = BlockBytes::copy_of(self.alloc, bytes)?;
        widen_span(&mut self.spans, inode, block);
        self.cache.put(Place { inode, block }, copy)?;
        Ok(())
    }

    /// The bytes of a block, if it is there. It is the first then. Where it is the first already it is not looked for.
    pub fn get(&mut self, inode: u32, block: u32) -> Option<&[u8]>
        ensures* moved { sem 𝓛 (follows_so the_row the_row self.entry.ghost_name none (λ _ _. ⊤) (λ last. last ≡ use_block inode block self.old)) }
        ensures bytes { option_map (λ b. b.now) result ≡ bytes_at inode block self.old }
        ensures whole { IfSome result (λ b. length b.now ≡ BLOCK_SIZE) }
    {
        self.move_to_front(inode, block);
        self.peek_if_first(inode, block)
    }

    // Moves a block in front, if it is there.
    fn move_to_front(&mut self, inode: u32, block: u32)
        ensures moved { self.new ≡ use_block inode block self.old }
        ensures found { bytes_if_first inode block self.new ≡ bytes_at inode block self.old }
    {
        // For the proof: no place is kept twice.
        let _ = self.cache.len();
        if self.peek_if_first(inode, block).is_some() {
            return;
        }
        self.cache.promote(&Place { inode, block });
    }

    // The bytes of a block, if it is the first one.
    fn peek_if_first(&self, inode: u32, block: u32) -> Option<&[u8]>
        ensures bytes { option_map (λ b. b.now) result ≡ bytes_if_first inode block self.now }
        ensures whole { IfSome result (λ b. length b.now ≡ BLOCK_SIZE) }
    {
        let place = Place { inode, block };
        match self.cache.peek_mru() {
            Some((first, bytes)) if place == *first => Some(bytes.as_slice()),
            _ => None,
        }
    }

    /// The bytes of a block, if it is there. The order stays as it is.
    pub fn peek(&self, inode: u32, block: u32) -> Option<&[u8]>
        ensures bytes { option_map (λ b. b.now) result ≡ bytes_at inode block self.now }
        ensures whole { IfSome result (λ b. length b.now ≡ BLOCK_SIZE) }
    {
        match self.cache.peek(&Place { inode, block }) {
            Some(bytes) => Some(bytes.as_slice()),
            None => None,
        }
    }

    /// Whether a block is there. The order stays as it is.
    pub fn contains(&self, inode: u32, block: u32) -> bool
        ensures { result ≡ is_some (bytes_at inode block self.now) }
    {
        self.cache.contains(&Place { inode, block })
    }

    /// Takes out the blocks of a file, and no others. It takes no memory.
    pub fn drop_file(&mut self, inode: u32)
        ensures { self.new ≡ without_file inode self.old }
    {
        drop_kept(&mut self.cache, &self.spans, inode);
        clear_span(&mut self.spans, inode);
    }

    /// How many blocks there are.
    pub fn len(&self) -> usize
        ensures len { result ≡ length self.now }
        ensures cache { IsCache self.now }
    {
        self.cache.len()
    }

    /// Whether there is none.
    pub fn is_empty(&self) -> bool
        ensures { result ≡ (length self.now == 0) }
    {
        self.len() == 0
    }
}
