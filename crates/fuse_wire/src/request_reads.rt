ghost use Rattle.std.specs.Prelude.{◌≡◌, ◌<◌, IfOk, IfErr, IsOk, Err};
ghost use Rattle.fuse_wire.specs.declared.header.Header.{Header};
ghost use Rattle.fuse_wire.specs.declared.request.Request.{Request};
ghost use Rattle.fuse_wire.specs.declared.error.WireError.{WireError};
ghost use Rattle.fuse_wire.specs.declared.opcode.Opcode.TheVariants as opcode;
ghost use Rattle.fuse_wire.specs.Layout.{IsLaidOut, body_of};
ghost use Rattle.fuse_wire.specs.Spelling.{Spells, SpellsBody, init_of, new_time, set_attr_of};
ghost use Rattle.fuse_wire.specs.Reasons.{IsWrong};
ghost use Rattle.fuse_wire.specs.Fields.{if_bit, u32_at, u64_at};

use crate::error::WireError;
use crate::fields::{has_bit, u32_at, u64_at};
use crate::header::{HEADER_LEN, Header};
use crate::header_reads::read_header;
use crate::init::Init;
use crate::layout::{body_of, check_body};
use crate::names::{name_at, names_at};
use crate::opcode::{Opcode, opcode_of};
use crate::replies::Time;
use crate::request::{NewTime, Request, SetAttr};

/// The request that exactly these bytes spell, with its header. Names and data are lent from the bytes; fields that no variant has
/// are not looked at.
///
/// `ShortHeader` and `WrongLength` where they are no whole message; for requests that are served, `ShortBody` where fields are lacking,
/// `LongBody` where bytes stand behind the last, `UnclosedName` where a name has no zero byte behind it, `WrongCount` where the data
/// of a WRITE or the nodes of a BATCH_FORGET are not as many as it says. The body of INIT may be longer than its first four fields,
/// as newer kernels send it.
pub fn read_request(bytes: &[u8]) -> Result<(Header, Request<'_>), WireError>
    ensures spelled { IfOk result (λ x. Spells bytes.now x.0 x.1) }
    ensures reason { IfErr result (λ e. IsWrong bytes.now e) }
    ensures found { (h : Header) (r : Request) → Spells bytes.now h r → IsOk result }
    ensures refused { (e : WireError) → IsWrong bytes.now e → result ≡ Err e }
{
    read_message(bytes)
}

fn read_message(bytes: &[u8]) -> Result<(Header, Request<'_>), WireError>
    ensures spelled { IfOk result (λ x. Spells bytes.now x.0 x.1) }
    ensures reason { IfErr result (λ e. IsWrong bytes.now e) }
{
    let header = read_header(bytes)?;
    let opcode = opcode_of(header.opcode);
    let body = &bytes[HEADER_LEN..];
    check_body(body_of(opcode), body)?;
    Ok((header, read_body(opcode, body)))
}

// The request of a body that is laid out as its opcode says.
fn read_body(opcode: Opcode, body: &[u8]) -> Request<'_>
    requires { IsLaidOut (body_of opcode) body.now }
    ensures { SpellsBody opcode body.now result }
{
    match opcode {
        Opcode::Init => Request::Init(read_init(body)),
        Opcode::Lookup => Request::Lookup {
            name: name_at(0, body),
        },
        Opcode::Forget => Request::Forget {
            count: u64_at(body, 0),
        },
        Opcode::BatchForget => Request::BatchForget { nodes: &body[8..] },
        Opcode::GetAttr => Request::GetAttr {
            handle: read_handle(body),
        },
        Opcode::SetAttr => read_setattr(body),
        Opcode::MkNod => read_mknod(body),
        Opcode::MkDir => read_mkdir(body),
        Opcode::Unlink => Request::Unlink {
            name: name_at(0, body),
        },
        Opcode::RmDir => Request::RmDir {
            name: name_at(0, body),
        },
        Opcode::Rename => read_rename(body),
        Opcode::Rename2 => read_rename2(body),
        Opcode::Link => read_link(body),
        Opcode::Open => Request::Open {
            flags: u32_at(body, 0),
        },
        Opcode::Create => read_create(body),
        Opcode::Read => read_read(body),
        Opcode::Write => read_write(body),
        Opcode::Release => Request::Release {
            handle: u64_at(body, 0),
        },
        Opcode::StatFs => Request::StatFs,
        Opcode::OpenDir => Request::OpenDir {
            flags: u32_at(body, 0),
        },
        Opcode::ReadDir => read_readdir(body),
        Opcode::ReleaseDir => Request::ReleaseDir {
            handle: u64_at(body, 0),
        },
        Opcode::Interrupt => Request::Interrupt {
            unique: u64_at(body, 0),
        },
        Opcode::Flush => Request::Flush,
        Opcode::Fsync => Request::Fsync,
        Opcode::FsyncDir => Request::FsyncDir,
        Opcode::Access => Request::Access,
        Opcode::SymLink => Request::SymLink,
        Opcode::Destroy => Request::Destroy,
        Opcode::Other(opcode) => Request::Other { opcode },
    }
}

#[tactic(auto, unfolding(crate::specs::Spelling::init_of))]
fn read_init(body: &[u8]) -> Init
    requires { IsLaidOut (body_of opcode.Init) body.now }
    ensures { result ≡ init_of body.now }
{
    Init {
        major: u32_at(body, 0),
        minor: u32_at(body, 4),
        max_readahead: u32_at(body, 8),
        flags: u32_at(body, 12),
    }
}

fn read_handle(body: &[u8]) -> Option<u64>
    requires { IsLaidOut (body_of opcode.GetAttr) body.now }
    ensures { result ≡ if_bit 0 (u32_at 0 body.now) (u64_at 8 body.now) }
{
    choose(0, u32_at(body, 0), u64_at(body, 8))
}

fn read_setattr(body: &[u8]) -> Request<'_>
    requires { IsLaidOut (body_of opcode.SetAttr) body.now }
    ensures { SpellsBody opcode.SetAttr body.now result }
{
    Request::SetAttr(read_changes(body))
}

#[tactic(auto, unfolding(crate::specs::Spelling::set_attr_of))]
fn read_changes(body: &[u8]) -> SetAttr
    requires { IsLaidOut (body_of opcode.SetAttr) body.now }
    ensures { result ≡ set_attr_of body.now }
{
    let valid = u32_at(body, 0);
    SetAttr {
        valid,
        handle: choose(6, valid, u64_at(body, 8)),
        size: choose(3, valid, u64_at(body, 16)),
        accessed: choose_time((4, 7), valid, u64_at(body, 32), u32_at(body, 56)),
        modified: choose_time((5, 8), valid, u64_at(body, 40), u32_at(body, 60)),
    }
}

// A time that counts only where the first bit is set; where the second is, too, it is that of the request.
fn choose_time(bits: (u32, u32), flags: u32, seconds: u64, nanoseconds: u32) -> Option<NewTime>
    requires given { bits.0 < 32 }
    requires now { bits.1 < 32 }
    ensures { result ≡ new_time bits.0 bits.1 flags seconds nanoseconds }
{
    if !has_bit(bits.0, flags) {
        return None;
    }
    if has_bit(bits.1, flags) {
        return Some(NewTime::Now);
    }
    Some(NewTime::At(Time {
        seconds,
        nanoseconds,
    }))
}

// A value that counts only where a bit is set.
fn choose(bit: u32, flags: u32, value: u64) -> Option<u64>
    requires { bit < 32 }
    ensures { result ≡ if_bit bit flags value }
{
    if has_bit(bit, flags) {
        Some(value)
    } else {
        None
    }
}

fn read_mknod(body: &[u8]) -> Request<'_>
    requires { IsLaidOut (body_of opcode.MkNod) body.now }
    ensures { SpellsBody opcode.MkNod body.now result }
{
    Request::MkNod {
        name: name_at(16, body),
        mode: u32_at(body, 0),
    }
}

fn read_mkdir(body: &[u8]) -> Request<'_>
    requires { IsLaidOut (body_of opcode.MkDir) body.now }
    ensures { SpellsBody opcode.MkDir body.now result }
{
    Request::MkDir {
        name: name_at(8, body),
        mode: u32_at(body, 0),
    }
}

fn read_rename(body: &[u8]) -> Request<'_>
    requires { IsLaidOut (body_of opcode.Rename) body.now }
    ensures { SpellsBody opcode.Rename body.now result }
{
    let (name, new_name) = names_at(8, body);
    Request::Rename {
        name,
        new_folder: u64_at(body, 0),
        new_name,
    }
}

fn read_rename2(body: &[u8]) -> Request<'_>
    requires { IsLaidOut (body_of opcode.Rename2) body.now }
    ensures { SpellsBody opcode.Rename2 body.now result }
{
    let (name, new_name) = names_at(16, body);
    Request::Rename2 {
        name,
        new_folder: u64_at(body, 0),
        new_name,
        flags: u32_at(body, 8),
    }
}

fn read_link(body: &[u8]) -> Request<'_>
    requires { IsLaidOut (body_of opcode.Link) body.now }
    ensures { SpellsBody opcode.Link body.now result }
{
    Request::Link {
        node: u64_at(body, 0),
        name: name_at(8, body),
    }
}

fn read_create(body: &[u8]) -> Request<'_>
    requires { IsLaidOut (body_of opcode.Create) body.now }
    ensures { SpellsBody opcode.Create body.now result }
{
    Request::Create {
        name: name_at(16, body),
        flags: u32_at(body, 0),
        mode: u32_at(body, 4),
    }
}

fn read_read(body: &[u8]) -> Request<'_>
    requires { IsLaidOut (body_of opcode.Read) body.now }
    ensures { SpellsBody opcode.Read body.now result }
{
    Request::Read {
        handle: u64_at(body, 0),
        at: u64_at(body, 8),
        size: u32_at(body, 16),
    }
}

fn read_write(body: &[u8]) -> Request<'_>
    requires { IsLaidOut (body_of opcode.Write) body.now }
    ensures { SpellsBody opcode.Write body.now result }
{
    Request::Write {
        handle: u64_at(body, 0),
        at: u64_at(body, 8),
        flags: u32_at(body, 20),
        bytes: &body[40..],
    }
}

fn read_readdir(body: &[u8]) -> Request<'_>
    requires { IsLaidOut (body_of opcode.ReadDir) body.now }
    ensures { SpellsBody opcode.ReadDir body.now result }
{
    Request::ReadDir {
        handle: u64_at(body, 0),
        at: u64_at(body, 8),
        size: u32_at(body, 16),
    }
}
