//! What holds of all media.

ghost use Rattle.std.specs.Prelude.{◌≡◌, ℕ, List};
ghost use Rattle.tier_device.specs.declared.media.Tier.{Tier};
ghost use Rattle.layout.specs.Places.{Sizes};
ghost use Rattle.layout.specs.declared.error.What.{What};
ghost use Rattle.batch_journal.specs.Volume.{IsVolume};
ghost use Rattle.batch_journal.specs.Damage.{NamesDamage};

/// A damaged medium has one structure that is named, and one that holds a journal has none.
pub fn damage_has_one_name()
    ensures one { (seen : Tier → List ℕ) (w v : What) (block place : ℕ) → NamesDamage seen w block → NamesDamage seen v place → (w ≡ v) × (block ≡ place) }
    ensures none { (seen : Tier → List ℕ) (w : What) (block : ℕ) → NamesDamage seen w block → (g : Sizes) → IsVolume g seen → ⊥ }
{}
