// Zeros behind bytes.
ghost use Rattle.std.specs.Prelude.{◌≡◌, ◌≤◌, length, OnOk};
ghost use Rattle.layout.specs.Bytes.{padded_text};

use std::alloc::AllocError;

/// Adds zeros up to a length.
#[tactic(auto, unfolding(layout::specs::Bytes::padded_text, layout::specs::Bytes::zeros))]
pub fn fill_up(bytes: &mut Vec<u8>, len: usize) -> Result<(), AllocError>
    requires { length bytes.old.items ≤ len }
    ensures filled { OnOk result (bytes.new.items ≡ padded_text len bytes.old.items) }
    ensures long { OnOk result (length bytes.new.items ≡ len) }
{
    bytes.resize(len, 0)
}
