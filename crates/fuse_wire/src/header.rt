ghost use Rattle.std.specs.Prelude.{◌≡◌, ◌≤◌, ◌<◌, length, IfOk, IfErr, Ok, Err, Some, None};
ghost use Rattle.fuse_wire.specs.Fields.{u32_at};
ghost use Rattle.fuse_wire.specs.Names.{IsLength};

use crate::error::WireError;
use crate::fields::u32_at;

/// The bytes of a request's header (`struct fuse_in_header`).
pub const HEADER_LEN: usize = 40;

/// The longest message that is read, in bytes: 65,536 bytes to be written, and 4,096 for what stands before them.
pub const MAX_MESSAGE: usize = 69_632;

/// What each request begins with.
#[derive(Clone, Copy)]
pub struct Header {
    /// Which request it is (`enum fuse_opcode`).
    pub opcode: u32,
    /// The number of the request, which its reply repeats.
    pub unique: u64,
    /// The node that it is about; 1 is the root, and 0 none.
    pub node: u64,
    /// The user for whom the kernel asks.
    pub uid: u32,
    /// The group for which the kernel asks.
    pub gid: u32,
    /// The process for which the kernel asks; 0 where it asks for none.
    pub pid: u32,
}

/// The length of the message that these bytes begin, in bytes: 40 to `MAX_MESSAGE`. `None` where fewer than the 4 of its length field are
/// there. `WrongLength` where the field names a length that no message has.
pub fn message_length(bytes: &[u8]) -> Result<Option<usize>, WireError>
    ensures cut_off { length bytes.now < 4 → result ≡ Ok None }
    ensures length { 4 ≤ length bytes.now → IsLength (u32_at 0 bytes.now) → result ≡ Ok (Some (u32_at 0 bytes.now)) }
    ensures wrong { 4 ≤ length bytes.now → (IsLength (u32_at 0 bytes.now) → ⊥) → result ≡ Err WireError.WrongLength }
{
    if bytes.len() < 4 {
        return Ok(None);
    }
    let length = u32_at(bytes, 0) as usize;
    if length < HEADER_LEN || MAX_MESSAGE < length {
        return Err(WireError::WrongLength);
    }
    Ok(Some(length))
}
