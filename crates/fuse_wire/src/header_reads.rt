ghost use Rattle.std.specs.Prelude.{◌≡◌, IfOk, IfErr, OnOk};
ghost use Rattle.fuse_wire.specs.Spelling.{IsWhole, header_of};
ghost use Rattle.fuse_wire.specs.Reasons.{IsWrong};

use crate::error::WireError;
use crate::fields::{u32_at, u64_at};
use crate::header::{HEADER_LEN, Header};

/// The header of bytes that are a whole message. `ShortHeader` and `WrongLength` where they are none.
#[tactic(auto, unfolding(crate::specs::Spelling::header_of))]
pub fn read_header(bytes: &[u8]) -> Result<Header, WireError>
    ensures whole { OnOk result (IsWhole bytes.now) }
    ensures header { IfOk result (λ h. h ≡ header_of bytes.now) }
    ensures reason { IfErr result (λ e. IsWrong bytes.now e) }
{
    if bytes.len() < HEADER_LEN {
        return Err(WireError::ShortHeader);
    }
    if u32_at(bytes, 0) as usize != bytes.len() {
        return Err(WireError::WrongLength);
    }
    Ok(Header {
        opcode: u32_at(bytes, 4),
        unique: u64_at(bytes, 8),
        node: u64_at(bytes, 16),
        uid: u32_at(bytes, 24),
        gid: u32_at(bytes, 28),
        pid: u32_at(bytes, 32),
    })
}
