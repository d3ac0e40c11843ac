ghost use Rattle.std.specs.Prelude.{◌≡◌};
ghost use Rattle.tier_device.specs.Fill.{fill_at, left_byte, shift};

use crate::Tier;

/// What one byte that was written and not fenced holds after a stop.
#[derive(Clone, Copy, PartialEq, Eq)]
pub enum ByteFill {
    /// What it held at the tier's last fence.
    Old,
    /// What was written.
    New,
    /// This byte.
    Byte(u8),
}

/// What every byte that was written and not fenced holds after a stop, by its place.
#[derive(Clone, Copy, PartialEq, Eq)]
pub enum Fill {
    /// What it held at the tier's last fence.
    Old,
    /// What was written.
    New,
    /// This byte.
    Byte(u8),
    /// In every tier one thing below an offset, and another from it on.
    Split {
        cut: usize,
        below: ByteFill,
        above: ByteFill,
    },
    /// One thing at the places whose bit is set, another at the others. Bit `(offset + 21 * tier) % 64` is a place's, where the
    /// fast tier is 0, the block tier 1 and the slow tier 2.
    Pattern {
        bits: u64,
        set: ByteFill,
        clear: ByteFill,
    },
}

impl Fill {
    /// What the byte at this place holds.
    pub fn choice(self, tier: Tier, offset: usize) -> ByteFill
        ensures { result ≡ fill_at self tier offset }
    {
        match self {
            Fill::Old => ByteFill::Old,
            Fill::New => ByteFill::New,
            Fill::Byte(byte) => ByteFill::Byte(byte),
            Fill::Split { cut, below, above } => { if offset < cut { below } else { above } }
            Fill::Pattern { bits, set, clear } => {
                let place = (offset % 64 + shift(tier)) % 64;
                if (bits >> place) % 2 == 1 { set } else { clear }
            }
        }
    }
}

fn shift(tier: Tier) -> usize
    ensures { result ≡ shift tier }
{
    match tier {
        Tier::Fast => 0,
        Tier::Block => 21,
        Tier::Slow => 42,
    }
}

impl ByteFill {
    /// The byte that stands there, by what it held at the last fence and what was written.
    pub fn choose(self, old: u8, new: u8) -> u8
        ensures { result ≡ left_byte self old new }
    {
        match self {
            ByteFill::Old => old,
            ByteFill::New => new,
            ByteFill::Byte(byte) => byte,
        }
    }
}
