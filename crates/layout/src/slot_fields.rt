// The numbers of an inode slot, whatever they are.
ghost use Rattle.std.specs.Prelude.{◌≡◌, length, option_map};
ghost use Rattle.layout.specs.Bytes.{padded_text, within};
ghost use Rattle.layout.specs.Slot.{slot_text, slot_at, is_blank};

use crate::field_reads::are_zero;
use crate::field_writes::{clear, put_u32, put_u64};
use crate::places::SLOT_SIZE;
use file_graph::{u32_of, u64_of};

/// The numbers of an inode slot, in their order on the medium, not yet checked for what they mean.
#[derive(Clone, Copy)]
pub struct SlotFields {
    pub kind: u32,
    pub names: u32,
    pub size: u64,
    pub touch: u64,
    pub fast: u32,
    pub block: u32,
    pub slow: u32,
}

impl SlotFields {
    /// Writes the numbers into the bytes of a slot, `SLOT_SIZE` of them, and zeros behind them.
    pub fn write(&self, bytes: &mut [u8])
        requires { length bytes.old ≡ SLOT_SIZE }
        ensures { bytes.new ≡ padded_text SLOT_SIZE (slot_text self.now) }
    {
        clear(bytes);
        put_u32(bytes, 0, self.kind);
        put_u32(bytes, 4, self.names);
        put_u64(bytes, 8, self.size);
        put_u64(bytes, 16, self.touch);
        put_u32(bytes, 24, self.fast);
        put_u32(bytes, 28, self.block);
        put_u32(bytes, 32, self.slow);
    }

    /// Reads the numbers of a slot. `None` if there are not `SLOT_SIZE` bytes, or one behind the numbers is not zero.
    pub fn read(bytes: &[u8]) -> Option<SlotFields>
        ensures { result ≡ within SLOT_SIZE slot_at bytes.now }
    {
        if bytes.len() != SLOT_SIZE {
            return None;
        }
        let (found, rest) = fields_of(bytes)?;
        if !are_zero(rest) {
            return None;
        }
        Some(found)
    }

    /// Answers whether all numbers are zero.
    pub fn is_blank(&self) -> bool
        ensures { result ≡ is_blank self.now }
    {
        self.kind == 0
            && self.names == 0
            && self.size == 0
            && self.touch == 0
            && self.fast == 0
            && self.block == 0
            && self.slow == 0
    }
}

#[tactic(auto, unfolding(crate::specs::Slot::slot_at))]
fn fields_of(bytes: &[u8]) -> Option<(SlotFields, &[u8])>
    ensures { option_map (λ x. (x.0, x.1.now)) result ≡ slot_at bytes.now }
{
    let (kind, rest) = u32_of(bytes)?;
    let (names, rest) = u32_of(rest)?;
    let (size, rest) = u64_of(rest)?;
    let (touch, rest) = u64_of(rest)?;
    let (fast, rest) = u32_of(rest)?;
    let (block, rest) = u32_of(rest)?;
    let (slow, rest) = u32_of(rest)?;
    let fields = SlotFields {
        kind,
        names,
        size,
        touch,
        fast,
        block,
        slow,
    };
    Some((fields, rest))
}
