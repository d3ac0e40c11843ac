// Dropping the blocks of a file.
ghost use Rattle.std.specs.Prelude.{◌≡◌, ◌++◌, ◌∷◌, [], ◌<◌, List, ℕ, length};
ghost use Rattle.lru.specs.LruCache.{lru_cache};
ghost use Rattle.block_cache.specs.declared.blocks.Place.{Place};
ghost use Rattle.block_cache.specs.Entries.{others_than, turn_entry};

use crate::blocks::Place;
use crate::bytes::BlockBytes;
use lru::LruCache;

/// Each block in turn, the one used longest ago first, goes if it is of the file, and else to the front. After the whole turn the
/// others stand as they stood. It takes no memory.
pub fn drop_blocks(cache: &mut LruCache<Place, BlockBytes>, inode: u32)
    ensures { cache.new ≡ lru_cache (others_than inode cache.old.entries) cache.old.cap }
{
    let mut left = cache.len();
    'turns: while left > 0 {
        turn(cache, inode);
        left -= 1;
    }
}

// The block used longest ago goes if it is of the file, and else to the front.
fn turn(cache: &mut LruCache<Place, BlockBytes>, inode: u32)
    ensures { (es : List (Place × List ℕ)) (e : Place × List ℕ) → cache.old.entries ≡ es ++ e ∷ [] → cache.new ≡ lru_cache (turn_entry inode es e) cache.old.cap }
{
    if cache.len() == 0 {
        return;
    }
    match cache.peek_lru() {
        Some((place, _)) => {
            let place = *place;
            if place.inode == inode {
                cache.pop_lru();
            } else {
                cache.promote(&place);
            }
        }
        None => {}
    }
}
