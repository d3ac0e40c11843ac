// What is found in a cache after each call.
ghost use Rattle.std.specs.Prelude.{◌≡◌, ◌≢◌, ◌⊎◌, ℕ, List, Some, None};
ghost use Rattle.block_cache.specs.CacheList.{Block, bytes_at, put_block, use_block, used_run, without_file};

/// A block that was put is found, and any other one that is found was there before.
pub fn put_block_is_found()
    ensures found { (bs : List Block) (inode block : ℕ) (bytes : List ℕ) → bytes_at inode block (put_block inode block bytes bs) ≡ Some bytes }
    ensures others { (bs : List Block) (inode block : ℕ) (bytes : List ℕ) (i n : ℕ) (found : List ℕ) → bytes_at i n (put_block inode block bytes bs) ≡ Some found
        → ((i ≡ inode) × (n ≡ block) × (found ≡ bytes)) ⊎ (bytes_at i n bs ≡ Some found) }
{}

/// To use a block, or a run of blocks, changes nothing that is found.
pub fn used_block_stays()
    ensures one { (bs : List Block) (inode block i n : ℕ) → bytes_at i n (use_block inode block bs) ≡ bytes_at i n bs }
    ensures run { (bs : List Block) (inode first count i n : ℕ) → bytes_at i n (used_run inode first count bs) ≡ bytes_at i n bs }
{}

/// Of a file that was dropped no block is found; of all others what was found before.
pub fn dropped_file_has_no_blocks()
    ensures none { (bs : List Block) (inode n : ℕ) → bytes_at inode n (without_file inode bs) ≡ None }
    ensures others { (bs : List Block) (inode i n : ℕ) → i ≢ inode → bytes_at i n (without_file inode bs) ≡ bytes_at i n bs }
{}
