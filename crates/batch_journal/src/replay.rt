// The device calls of a batch, and of the replay of an open journal.
ghost use Rattle.std.specs.Prelude.{◌≡◌, ◌≢◌, ◌≤◌, ◌<◌, ◌+◌, ◌*◌, List, ℕ, length, OnOk, OnErr, true, false};
ghost use Rattle.tier_device.specs.declared.media.Tier.{Tier};
ghost use Rattle.tier_device.specs.declared.media.Tier.TheVariants.{Fast};
ghost use Rattle.tier_device.specs.Media.{Rose};
ghost use Rattle.tier_device.specs.AfterStop.{AtRest};
ghost use Rattle.batch_journal.specs.Images.{image_count, images_of, rest_of_head};
ghost use Rattle.batch_journal.specs.Blocks.{area_of, is_gate_open, IsShutGate, home, after_batch, Fit};
ghost use Rattle.batch_journal.specs.Volume.{SameJournal, IsAfter};
ghost use Rattle.batch_journal.specs.Course.{Since, BesideFrom, SameOrAfter, IsPut, SameLengths};

use crate::calls::{Failed, keep, put_image, settle};
use tier_device::{Media, Tier};

/// Where the gate stands.
pub const GATE: usize = 139_264;

/// Where the head stands, with the images behind it.
pub const HEAD: usize = 143_360;

/// Where the journal ends.
pub const END: usize = 1_196_032;

/// The byte of an open gate. Any other closes it.
pub const OPEN: u8 = 0xa5;

/// The byte that closes the gate again.
pub const CLOSED: u8 = 0x00;

/// The n writes in place. They are not kept yet.
fn put_images<M: Media>(media: &mut M, bytes: &[u8], count: usize) -> Result<(), Failed>
    requires count { count ≡ image_count bytes.now }
    requires few { count ≤ 256 }
    requires long { 4096 * count + 4096 ≤ length bytes.now }
    requires fit { Fit (length (M.seen media.old Fast)) (images_of bytes.now) }
    ensures course { Since Fast (BesideFrom (M.left media.old (M.moment media.old) Fast) (images_of bytes.now)) (M.moment media.old) (M.moment media.new) (M.left media.old) (M.left media.new) }
    ensures put { OnOk result (IsPut (images_of bytes.now) (M.seen media.old Fast) (M.seen media.new Fast)) }
    ensures others { OnOk result ((t : Tier) → t ≢ Fast → M.seen media.new t ≡ M.seen media.old t) }
    ensures lengths { SameLengths (M.seen media.old) (M.seen media.new) }
    ensures calls { OnOk result (M.moment media.new ≡ M.moment media.old + count) }
    ensures at_most { M.moment media.new ≤ M.moment media.old + count }
    ensures quiet { OnOk result (M.faults media.new ≡ M.faults media.old) }
    ensures faults { M.faults media.old ≤ M.faults media.new }
    ensures one_fault { M.faults media.new ≤ M.faults media.old + 1 }
    ensures cause { OnErr result (Rose (M.faults media.old) (M.faults media.new)) }
{
    let mut place = 0;
    'images: while place < count {
        put_image(media, bytes, place)?;
        place += 1;
    }
    Ok(())
}

fn put_images_kept<M: Media>(media: &mut M, bytes: &[u8], count: usize) -> Result<(), Failed>
    requires count { count ≡ image_count bytes.now }
    requires few { count ≤ 256 }
    requires long { 4096 * count + 4096 ≤ length bytes.now }
    requires fit { Fit (length (M.seen media.old Fast)) (images_of bytes.now) }
    ensures course { Since Fast (BesideFrom (M.left media.old (M.moment media.old) Fast) (images_of bytes.now)) (M.moment media.old) (M.moment media.new) (M.left media.old) (M.left media.new) }
    ensures rest { OnOk result (AtRest (M.seen media.new) (M.left media.new (M.moment media.new)) Fast) }
    ensures put { OnOk result (IsPut (images_of bytes.now) (M.seen media.old Fast) (M.seen media.new Fast)) }
    ensures others { OnOk result ((t : Tier) → t ≢ Fast → M.seen media.new t ≡ M.seen media.old t) }
    ensures lengths { SameLengths (M.seen media.old) (M.seen media.new) }
    ensures calls { OnOk result (M.moment media.new ≡ M.moment media.old + count + 1) }
    ensures at_most { M.moment media.new ≤ M.moment media.old + count + 1 }
    ensures quiet { OnOk result (M.faults media.new ≡ M.faults media.old) }
    ensures faults { M.faults media.old ≤ M.faults media.new }
    ensures one_fault { M.faults media.new ≤ M.faults media.old + 1 }
    ensures cause { OnErr result (Rose (M.faults media.old) (M.faults media.new)) }
{
    put_images(media, bytes, count)?;
    settle(media, Tier::Fast)
}

/// Replays the open journal, whose head and images these bytes are, and closes it.
pub fn replay<M: Media>(media: &mut M, bytes: &[u8], count: usize) -> Result<(), Failed>
    requires count { count ≡ image_count bytes.now }
    requires few { count ≤ 256 }
    requires long { 4096 * count + 4096 ≤ length bytes.now }
    requires fit { Fit (length (M.seen media.old Fast)) (images_of bytes.now) }
    requires size { 1196032 ≤ length (M.seen media.old Fast) }
    requires rest { AtRest (M.seen media.old) (M.left media.old (M.moment media.old)) Fast }
    requires opened { is_gate_open (M.seen media.old Fast) ≡ true }
    requires staged { images_of (area_of (M.seen media.old Fast)) ≡ images_of bytes.now }
    ensures course { Since Fast (SameJournal (M.seen media.old Fast)) (M.moment media.old) (M.moment media.new) (M.left media.old) (M.left media.new) }
    ensures rest { OnOk result (AtRest (M.seen media.new) (M.left media.new (M.moment media.new)) Fast) }
    ensures closed { OnOk result (is_gate_open (M.seen media.new Fast) ≡ false) }
    ensures others { OnOk result ((t : Tier) → t ≢ Fast → M.seen media.new t ≡ M.seen media.old t) }
    ensures lengths { SameLengths (M.seen media.old) (M.seen media.new) }
    ensures calls { OnOk result (M.moment media.new ≡ M.moment media.old + count + 3) }
    ensures at_most { M.moment media.new ≤ M.moment media.old + count + 3 }
    ensures quiet { OnOk result (M.faults media.new ≡ M.faults media.old) }
    ensures gate_byte { OnOk result (IsShutGate (M.seen media.new Fast)) }
    ensures faults { M.faults media.old ≤ M.faults media.new }
    ensures one_fault { M.faults media.new ≤ M.faults media.old + 1 }
    ensures cause { OnErr result (Rose (M.faults media.old) (M.faults media.new)) }
{
    put_images_kept(media, bytes, count)?;
    keep(media, GATE, &[CLOSED])
}

/// Writes head and images behind the closed gate, and opens it.
fn open_batch<M: Media>(media: &mut M, bytes: &[u8]) -> Result<(), Failed>
    requires few { image_count bytes.now ≤ 256 }
    requires long { 4096 * image_count bytes.now + 4096 ≡ length bytes.now }
    requires size { 1196032 ≤ length (M.seen media.old Fast) }
    requires closed { (c : List ℕ) → M.left media.old (M.moment media.old) Fast c → is_gate_open c ≡ false }
    ensures course { Since Fast (SameOrAfter (M.left media.old (M.moment media.old) Fast) bytes.now (M.seen media.old Fast)) (M.moment media.old) (M.moment media.new) (M.left media.old) (M.left media.new) }
    ensures rest { OnOk result (AtRest (M.seen media.new) (M.left media.new (M.moment media.new)) Fast) }
    ensures opened { OnOk result (is_gate_open (M.seen media.new Fast) ≡ true) }
    ensures staged { OnOk result (images_of (area_of (M.seen media.new Fast)) ≡ images_of bytes.now) }
    ensures after { OnOk result (IsAfter bytes.now (M.seen media.old Fast) (M.seen media.new Fast)) }
    ensures others { OnOk result ((t : Tier) → t ≢ Fast → M.seen media.new t ≡ M.seen media.old t) }
    ensures lengths { SameLengths (M.seen media.old) (M.seen media.new) }
    ensures calls { OnOk result (M.moment media.new ≡ M.moment media.old + 4) }
    ensures at_most { M.moment media.new ≤ M.moment media.old + 4 }
    ensures quiet { OnOk result (M.faults media.new ≡ M.faults media.old) }
    ensures faults { M.faults media.old ≤ M.faults media.new }
    ensures one_fault { M.faults media.new ≤ M.faults media.old + 1 }
    ensures cause { OnErr result (Rose (M.faults media.old) (M.faults media.new)) }
{
    keep(media, HEAD, bytes)?;
    keep(media, GATE, &[OPEN])
}

/// A batch of at least one image, whole or not at all.
pub fn write_batch<M: Media>(media: &mut M, bytes: &[u8], count: usize) -> Result<(), Failed>
    requires count { count ≡ image_count bytes.now }
    requires few { count ≤ 256 }
    requires long { 4096 * count + 4096 ≡ length bytes.now }
    requires fit { Fit (length (M.seen media.old Fast)) (images_of bytes.now) }
    requires size { 1196032 ≤ length (M.seen media.old Fast) }
    requires closed { (c : List ℕ) → M.left media.old (M.moment media.old) Fast c → is_gate_open c ≡ false }
    ensures course { Since Fast (SameOrAfter (M.left media.old (M.moment media.old) Fast) bytes.now (M.seen media.old Fast)) (M.moment media.old) (M.moment media.new) (M.left media.old) (M.left media.new) }
    ensures rest { OnOk result (AtRest (M.seen media.new) (M.left media.new (M.moment media.new)) Fast) }
    ensures closed { OnOk result (is_gate_open (M.seen media.new Fast) ≡ false) }
    ensures after { OnOk result (IsAfter bytes.now (M.seen media.old Fast) (M.seen media.new Fast)) }
    ensures others { OnOk result ((t : Tier) → t ≢ Fast → M.seen media.new t ≡ M.seen media.old t) }
    ensures lengths { SameLengths (M.seen media.old) (M.seen media.new) }
    ensures calls { OnOk result (M.moment media.new ≡ M.moment media.old + count + 7) }
    ensures at_most { M.moment media.new ≤ M.moment media.old + count + 7 }
    ensures quiet { OnOk result (M.faults media.new ≡ M.faults media.old) }
    ensures gate_byte { OnOk result (IsShutGate (M.seen media.new Fast)) }
    ensures faults { M.faults media.old ≤ M.faults media.new }
    ensures one_fault { M.faults media.new ≤ M.faults media.old + 1 }
    ensures cause { OnErr result (Rose (M.faults media.old) (M.faults media.new)) }
{
    open_batch(media, bytes)?;
    replay(media, bytes, count)
}
