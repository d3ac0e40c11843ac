// What the bytes of a head say.
ghost use Rattle.std.specs.Prelude.{◌≡◌, ◌<◌, ◌≤◌, ◌+◌, ◌*◌, ◌^◌, ℕ, List, length, true, IsTrue, ◌↔◌};
ghost use Rattle.layout.specs.Places.{is_journaled};
ghost use Rattle.batch_journal.specs.Images.{image_count, target_at, images_of, rest_of_head, Rises};
ghost use Rattle.layout.specs.Bytes.{are_zero};
ghost use Rattle.batch_journal.specs.Blocks.{RisesJournaled};
ghost use Rattle.batch_journal.specs.Volume.{IsHead, Spells, KeepsGeometry};

use byteorder::{ByteOrder, LittleEndian};
use layout::{Geometry, Super, are_zero};

/// The block that the image at a place is for.
pub fn number_in(bytes: &[u8], place: usize) -> u32
    requires { 4 + 4 * place + 4 ≤ length bytes.now }
    ensures { result ≡ target_at bytes.now place }
{
    LittleEndian::read_u32(&bytes[4 + 4 * place..])
}

/// Whether the bytes are a head of this geometry.
pub fn is_head(bytes: &[u8], count: usize, geometry: &Geometry) -> bool
    requires count { count ≡ image_count bytes.now }
    requires some { 1 ≤ count }
    requires few { count ≤ 256 }
    requires long { 4096 ≤ length bytes.now }
    ensures { IsTrue result ↔ IsHead geometry.now bytes.now }
{
    is_rising(bytes, count, geometry) && ends_in_zeros(bytes, count)
}

fn ends_in_zeros(bytes: &[u8], count: usize) -> bool
    requires count { count ≡ image_count bytes.now }
    requires few { count ≤ 256 }
    requires long { 4096 ≤ length bytes.now }
    ensures { result ≡ are_zero (rest_of_head bytes.now) }
{
    are_zero(&bytes[4 + 4 * count..4096])
}

/// Whether the numbers rise and name blocks that a batch may write.
pub fn is_rising(bytes: &[u8], count: usize, geometry: &Geometry) -> bool
    requires count { count ≡ image_count bytes.now }
    requires few { count ≤ 1023 }
    requires long { 4096 ≤ length bytes.now }
    ensures { IsTrue result ↔ RisesJournaled geometry.now 0 (images_of bytes.now) }
{
    let mut low: u64 = 0;
    let mut place = 0;
    'places: while place < count {
        let number = number_in(bytes, place);
        if !may_follow(number, low, geometry) {
            return false;
        }
        low = number as u64 + 1;
        place += 1;
    }
    true
}

fn may_follow(number: u32, low: u64, geometry: &Geometry) -> bool
    ensures { IsTrue result ↔ ((low ≤ number) × (is_journaled geometry.now number ≡ true)) }
{
    low <= number as u64 && geometry.is_journaled(number)
}

/// Whether an image for block 0 spells this geometry, if there is one: it is the first.
pub fn keeps_geometry(bytes: &[u8], count: usize, geometry: &Geometry) -> bool
    requires count { count ≡ image_count bytes.now }
    requires few { count ≤ 1023 }
    requires long { 4096 * count + 4096 ≤ length bytes.now }
    requires rises { Rises 0 (images_of bytes.now) }
    ensures { IsTrue result ↔ KeepsGeometry geometry.now (images_of bytes.now) }
{
    if count == 0 || number_in(bytes, 0) != 0 {
        return true;
    }
    spells(&bytes[4096..8192], geometry)
}

fn spells(block: &[u8], geometry: &Geometry) -> bool
    ensures { IsTrue result ↔ Spells geometry.now block.now }
{
    match Super::decode(block) {
        Ok(found) => found.geometry == *geometry,
        Err(_) => false,
    }
}
