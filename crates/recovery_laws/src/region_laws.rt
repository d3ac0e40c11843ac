//! What the bytes of a fresh region stand for.

ghost use Rattle.std.specs.Prelude.{◌≡◌, ◌^◌, ◌<◌, ℕ, List, [], get_or};
ghost use Rattle.tier_device.specs.declared.media.Tier.{Tier};
ghost use Rattle.tier_device.specs.declared.media.Tier.TheVariants.{Fast, Block, Slow};
ghost use Rattle.update_log.specs.Frames.{header, records};
ghost use Rattle.update_log.specs.View.{HasSize};
ghost use Rattle.update_log.specs.WipeStops.{generation};
ghost use Rattle.update_log.specs.declared.format.TheConstants.{HEADER, CLOSED};
ghost use Rattle.recovery_laws.specs.Fresh.{fresh_region};

/// A fresh region has the size of a region, names its generation, as its header does, and has no record: its first gate is closed, so that one may be begun.
pub fn fresh_region_is_empty()
    ensures size { (n : ℕ) (seen : Tier → List ℕ) → seen Fast ≡ fresh_region n → seen Block ≡ [] → seen Slow ≡ [] → HasSize seen }
    ensures named { (n : ℕ) → n < 2 ^ 64 → generation (fresh_region n) ≡ n }
    ensures header { (n : ℕ) → n < 2 ^ 64 → generation (header (fresh_region n)) ≡ n }
    ensures none { (n : ℕ) → records (fresh_region n) ≡ [] }
    ensures closed { (n : ℕ) → get_or (fresh_region n) HEADER 0 ≡ CLOSED }
{}
