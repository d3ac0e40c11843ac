//! Replies, each spelled into a buffer that is cleared first. Where memory is refused, the buffer is empty.

ghost use Rattle.std.specs.Prelude.{◌≡◌, ◌≤◌, ◌<◌, ◌+◌, ◌^◌, ◌++◌, [], length, vec_len, vec_capacity, OnOk, OnErr, IsOk};
ghost use Rattle.fuse_wire.specs.Fields.{fields_bytes};
ghost use Rattle.fuse_wire.specs.Errno.{refusal_number};
ghost use Rattle.fuse_wire.specs.Replies.{header_fields, reply_bytes, error_bytes, count_fields, absence_fields, open_fields, statfs_fields, init_fields, attr_bytes, entry_bytes, valid_fields};

use crate::errno::Refusal;
use crate::fields::{Field, fields_len, push_bytes, push_fields, push_u32, push_u64};
use crate::init::InitReply;
use crate::replies::{
    Attr, Entry, OpenFile, StatFs, Time, absence_fields, attr_fields, entry_fields, init_fields,
    open_fields, statfs_fields, valid_fields,
};
use std::alloc::AllocError;

/// A buffer with room for this many bytes takes each reply but those of READ and READDIR without asking for memory.
pub const REPLY_ROOM: usize = 272;

/// The reply that refuses a request.
pub fn write_error(out: &mut Vec<u8>, unique: u64, refusal: Refusal) -> Result<(), AllocError>
    ensures written { OnOk result (out.new.items ≡ error_bytes unique (refusal_number refusal)) }
    ensures refused { OnErr result (out.new.items ≡ []) }
    ensures room { REPLY_ROOM ≤ vec_capacity out.old → IsOk result }
{
    begin_reply(out, 0, 0, u32::MAX - refusal.number() + 1, unique)
}

/// The reply to a request that is done and asks for nothing: UNLINK, RMDIR, RENAME, RELEASE and the like.
pub fn write_empty(out: &mut Vec<u8>, unique: u64) -> Result<(), AllocError>
    ensures written { OnOk result (out.new.items ≡ reply_bytes unique []) }
    ensures refused { OnErr result (out.new.items ≡ []) }
    ensures room { REPLY_ROOM ≤ vec_capacity out.old → IsOk result }
{
    write_fields(out, unique, &[])
}

/// The reply to READ: the bytes, fewer than 4,294,967,280 of them. Fewer than were asked for mean the end of the file.
#[tactic(auto, unfolding(crate::specs::Replies::reply_bytes))]
pub fn write_data(out: &mut Vec<u8>, unique: u64, bytes: &[u8]) -> Result<(), AllocError>
    requires { 16 + length bytes.now < 2 ^ 32 }
    ensures written { OnOk result (out.new.items ≡ reply_bytes unique bytes.now) }
    ensures refused { OnErr result (out.new.items ≡ []) }
    ensures room { 16 + length bytes.now ≤ vec_capacity out.old → IsOk result }
{
    begin_reply(out, bytes.len(), bytes.len(), 0, unique)?;
    push_bytes(out, bytes);
    Ok(())
}

/// The reply to WRITE: how many bytes were written.
pub fn write_count(out: &mut Vec<u8>, unique: u64, count: u32) -> Result<(), AllocError>
    ensures written { OnOk result (out.new.items ≡ reply_bytes unique (fields_bytes (count_fields count))) }
    ensures refused { OnErr result (out.new.items ≡ []) }
    ensures room { REPLY_ROOM ≤ vec_capacity out.old → IsOk result }
{
    write_fields(out, unique, &[Field::Four(count), Field::Four(0)])
}

/// The reply to LOOKUP, MKNOD, MKDIR and LINK: what has the name.
pub fn write_entry(out: &mut Vec<u8>, unique: u64, entry: &Entry) -> Result<(), AllocError>
    ensures written { OnOk result (out.new.items ≡ reply_bytes unique (entry_bytes entry.now)) }
    ensures refused { OnErr result (out.new.items ≡ []) }
    ensures room { REPLY_ROOM ≤ vec_capacity out.old → IsOk result }
{
    write_parts(
        out,
        unique,
        &entry_fields(entry),
        &attr_fields(&entry.attr),
        &[],
    )
}

/// The reply to LOOKUP of a name that nothing has: how long the kernel may keep that.
pub fn write_absence(out: &mut Vec<u8>, unique: u64, valid: Time) -> Result<(), AllocError>
    ensures written { OnOk result (out.new.items ≡ reply_bytes unique (fields_bytes (absence_fields valid))) }
    ensures refused { OnErr result (out.new.items ≡ []) }
    ensures room { REPLY_ROOM ≤ vec_capacity out.old → IsOk result }
{
    write_fields(out, unique, &absence_fields(valid))
}

/// The reply to GETATTR and SETATTR: the attributes, and how long the kernel may keep them.
pub fn write_attr(
    out: &mut Vec<u8>,
    unique: u64,
    valid: Time,
    attr: &Attr,
) -> Result<(), AllocError>
    ensures written { OnOk result (out.new.items ≡ reply_bytes unique (fields_bytes (valid_fields valid) ++ attr_bytes attr.now)) }
    ensures refused { OnErr result (out.new.items ≡ []) }
    ensures room { REPLY_ROOM ≤ vec_capacity out.old → IsOk result }
{
    write_parts(out, unique, &valid_fields(valid), &attr_fields(attr), &[])
}

/// The reply to OPEN and OPENDIR.
pub fn write_open(out: &mut Vec<u8>, unique: u64, file: &OpenFile) -> Result<(), AllocError>
    ensures written { OnOk result (out.new.items ≡ reply_bytes unique (fields_bytes (open_fields file.now))) }
    ensures refused { OnErr result (out.new.items ≡ []) }
    ensures room { REPLY_ROOM ≤ vec_capacity out.old → IsOk result }
{
    write_fields(out, unique, &open_fields(file))
}

/// The reply to CREATE: what has the name, and the open file.
pub fn write_create(
    out: &mut Vec<u8>,
    unique: u64,
    entry: &Entry,
    file: &OpenFile,
) -> Result<(), AllocError>
    ensures written { OnOk result (out.new.items ≡ reply_bytes unique (entry_bytes entry.now ++ fields_bytes (open_fields file.now))) }
    ensures refused { OnErr result (out.new.items ≡ []) }
    ensures room { REPLY_ROOM ≤ vec_capacity out.old → IsOk result }
{
    write_parts(
        out,
        unique,
        &entry_fields(entry),
        &attr_fields(&entry.attr),
        &open_fields(file),
    )
}

/// The reply to STATFS.
pub fn write_statfs(out: &mut Vec<u8>, unique: u64, stat: &StatFs) -> Result<(), AllocError>
    ensures written { OnOk result (out.new.items ≡ reply_bytes unique (fields_bytes (statfs_fields stat.now))) }
    ensures refused { OnErr result (out.new.items ≡ []) }
    ensures room { REPLY_ROOM ≤ vec_capacity out.old → IsOk result }
{
    write_fields(out, unique, &statfs_fields(stat))
}

/// The reply to INIT.
pub fn write_init(out: &mut Vec<u8>, unique: u64, reply: &InitReply) -> Result<(), AllocError>
    ensures written { OnOk result (out.new.items ≡ reply_bytes unique (fields_bytes (init_fields reply.now))) }
    ensures refused { OnErr result (out.new.items ≡ []) }
    ensures room { REPLY_ROOM ≤ vec_capacity out.old → IsOk result }
{
    write_fields(out, unique, &init_fields(reply))
}

// A reply of fields.
fn write_fields(out: &mut Vec<u8>, unique: u64, fields: &[Field]) -> Result<(), AllocError>
    requires { length fields.now ≤ 32 }
    ensures written { OnOk result (out.new.items ≡ reply_bytes unique (fields_bytes fields.now)) }
    ensures refused { OnErr result (out.new.items ≡ []) }
    ensures room { REPLY_ROOM ≤ vec_capacity out.old → IsOk result }
{
    write_parts(out, unique, fields, &[], &[])
}

// A reply of the fields of three lists, one behind the other.
fn write_parts(
    out: &mut Vec<u8>,
    unique: u64,
    front: &[Field],
    middle: &[Field],
    back: &[Field],
) -> Result<(), AllocError>
    requires { length front.now + length middle.now + length back.now ≤ 32 }
    ensures written { OnOk result (out.new.items ≡ reply_bytes unique ((fields_bytes front.now ++ fields_bytes middle.now) ++ fields_bytes back.now)) }
    ensures refused { OnErr result (out.new.items ≡ []) }
    ensures room { REPLY_ROOM ≤ vec_capacity out.old → IsOk result }
{
    let len = fields_len(front) + fields_len(middle) + fields_len(back);
    let room = 8 * (front.len() + middle.len() + back.len());
    begin_reply(out, len, room, 0, unique)?;
    push_fields(out, front);
    push_fields(out, middle);
    push_fields(out, back);
    Ok(())
}

/// Clears the buffer and writes the header of a reply, 16 bytes, whose body has `len` bytes, with room for `room` more
/// bytes. Refused for want of memory alone, the buffer then empty; never where it has that room already.
pub fn begin_reply(
    out: &mut Vec<u8>,
    len: usize,
    room: usize,
    error: u32,
    unique: u64,
) -> Result<(), AllocError>
    requires len { 16 + len < 2 ^ 32 }
    requires room { 16 + room < 2 ^ 32 }
    ensures written { OnOk result (out.new.items ≡ fields_bytes (header_fields (16 + len) error unique)) }
    ensures len { OnOk result (vec_len out.new ≡ 16) }
    ensures reserved { OnOk result (16 + room ≤ vec_capacity out.new) }
    ensures refused { OnErr result (out.new.items ≡ []) }
    ensures room { 16 + room ≤ vec_capacity out.old → IsOk result }
{
    out.clear();
    out.reserve(16 + room)?;
    push_u32(out, 16 + len as u32);
    push_u32(out, error);
    push_u64(out, unique);
    Ok(())
}
