// In which span the kept blocks of a file lie.
ghost use Rattle.std.specs.Prelude.{◌≡◌, ◌≢◌, ℕ, Some, None, IfOk, option_map, replicate, slice_get};
ghost use Rattle.block_cache.specs.Spans.{wider_span};
ghost use Rattle.block_cache.specs.declared.span.TheConstants.{FILES};

use std::alloc::{AllocError, Global};

// Files of inodes below this have a span. The blocks of any other are looked for among all.
const FILES: usize = 1_025;

/// The numbers of blocks from a first one to the last.
#[derive(Clone, Copy)]
pub struct Span {
    pub first: u32,
    pub last: u32,
}

/// No file has blocks.
pub fn no_spans(alloc: Global) -> Result<Vec<Option<Span>>, AllocError>
    ensures { IfOk result (λ spans. spans.items ≡ replicate FILES None) }
{
    let files = FILES;
    vec![in alloc; None; files]
}

/// What is known of the blocks of a file: that there are none, the span in which they lie, or nothing.
pub fn span_of(spans: &[Option<Span>], inode: u32) -> Option<Option<Span>>
    ensures { result ≡ slice_get spans.now inode }
{
    spans.get(inode as usize).copied()
}

/// A file may have this block too.
pub fn widen_span(spans: &mut Vec<Option<Span>>, inode: u32, block: u32)
    ensures here { slice_get spans.new.items inode ≡ option_map (λ span. Some (wider_span span block)) (slice_get spans.old.items inode) }
    ensures others { (i : ℕ) → i ≢ inode → slice_get spans.new.items i ≡ slice_get spans.old.items i }
{
    let place = inode as usize;
    if place < spans.len() {
        spans[place] = Some(wider_span(spans[place], block));
    }
}

// The least span that has this block too.
fn wider_span(span: Option<Span>, block: u32) -> Span
    ensures { result ≡ wider_span span block }
{
    match span {
        Some(span) => Span {
            first: span.first.min(block),
            last: span.last.max(block),
        },
        None => Span {
            first: block,
            last: block,
        },
    }
}

/// A file has no blocks.
pub fn clear_span(spans: &mut Vec<Option<Span>>, inode: u32)
    ensures here { slice_get spans.new.items inode ≡ option_map (λ _. None) (slice_get spans.old.items inode) }
    ensures others { (i : ℕ) → i ≢ inode → slice_get spans.new.items i ≡ slice_get spans.old.items i }
{
    let place = inode as usize;
    if place < spans.len() {
        spans[place] = None;
    }
}
