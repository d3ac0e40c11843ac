// What the clients' regions hold, as they stand.
use crate::image::cut_front;
use crate::region::{Owner, describe_region};
use script::Text;
use script::in_update_log::REGION_SIZE;
use std::alloc::Global;

/// Prints each region of client after client, the one of even generations first.
pub fn describe_regions(alloc: Global, bytes: &[u8], text: &mut Text) {
    let mut left = bytes;
    for client in 1u32..9 {
        left = describe_next(alloc, owner(client, " even"), left, text);
        left = describe_next(alloc, owner(client, " odd"), left, text);
    }
}

fn owner(client: u32, parity: &'static str) -> Owner {
    Owner { client, parity }
}

// Prints the region in front, and answers the bytes behind it.
fn describe_next<'a>(alloc: Global, owner: Owner, bytes: &'a [u8], text: &mut Text) -> &'a [u8] {
    match cut_front(bytes, REGION_SIZE) {
        Some((region, behind)) => {
            describe_region(alloc, owner, region, text);
            behind
        }
        None => bytes,
    }
}
