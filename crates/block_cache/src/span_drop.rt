// Dropping the blocks of a file by the span in which they lie.
ghost use Rattle.std.specs.Prelude.{◌≡◌, ◌-◌, nat_lt};
ghost use Rattle.lru.specs.LruCache.{lru_cache};
ghost use Rattle.block_cache.specs.Entries.{others_than};
ghost use Rattle.block_cache.specs.Spans.{AreFromTo, AreIn, others_at};

use crate::blocks::Place;
use crate::bytes::BlockBytes;
use crate::file_drop::drop_blocks;
use crate::span::{Span, span_of};
use lru::LruCache;

/// The blocks of a file go, and no others. Where the span of the file is longer than all that is kept, they are looked for among all.
pub fn drop_kept(cache: &mut LruCache<Place, BlockBytes>, spans: &[Option<Span>], inode: u32)
    requires { AreIn spans.now cache.old.entries }
    ensures { cache.new ≡ lru_cache (others_than inode cache.old.entries) cache.old.cap }
{
    match span_of(spans, inode) {
        Some(None) => {}
        Some(Some(span)) if is_short(span, cache.len()) => drop_span(cache, inode, span),
        _ => drop_blocks(cache, inode),
    }
}

// Whether a span has `limit` blocks at most.
fn is_short(span: Span, limit: usize) -> bool
    ensures { result ≡ nat_lt (span.last - span.first) limit }
{
    (span.last.saturating_sub(span.first) as usize) < limit
}

// Each block of the file in a span goes.
fn drop_span(cache: &mut LruCache<Place, BlockBytes>, inode: u32, span: Span)
    requires { AreFromTo inode span.first span.last cache.old.entries }
    ensures { cache.new ≡ lru_cache (others_than inode cache.old.entries) cache.old.cap }
{
    for block in span.first..span.last {
        drop_block(cache, inode, block);
    }
    drop_block(cache, inode, span.last);
}

fn drop_block(cache: &mut LruCache<Place, BlockBytes>, inode: u32, block: u32)
    ensures { cache.new ≡ lru_cache (others_at inode block cache.old.entries) cache.old.cap }
{
    // For the proof: no place is kept twice.
    let _ = cache.len();
    let _ = cache.pop(&Place { inode, block });
}
