ghost use Rattle.std.specs.Prelude.{◌≡◌, ◌≤◌, ◌+◌, OnOk, IfErr};
ghost use Rattle.fuse_wire.specs.declared.layout.Body.TheVariants as layout;
ghost use Rattle.fuse_wire.specs.Layout.{IsSound, body_of, IsLaidOut};
ghost use Rattle.fuse_wire.specs.Reasons.{IsWrongBody};

use crate::error::WireError;
use crate::fields::u32_at;
use crate::names::behind_names;
use crate::opcode::Opcode;

/// What the body of a request consists of.
#[derive(Clone, Copy)]
pub enum Body {
    /// `fields` bytes of fields, and behind them `names` names, each with a zero byte.
    Named {
        fields: usize,
        names: u32,
    },
    /// `fields` bytes of fields, with a count at byte `place` of them, and `each` bytes for each that it counts.
    Counted {
        fields: usize,
        place: usize,
        each: u32,
    },
    /// `fields` bytes of fields, and whatever is behind them.
    Longer {
        fields: usize,
    },
}

/// Returns the layout of the body of a request with this opcode.
pub fn body_of(opcode: Opcode) -> Body
    ensures body { result ≡ body_of opcode }
    ensures sound { IsSound result }
{
    match opcode {
        Opcode::Write => body_with_count(40, 16, 1),
        Opcode::BatchForget => body_with_count(8, 0, 16),
        Opcode::Init => Body::Longer { fields: 16 },
        Opcode::Lookup | Opcode::Unlink | Opcode::RmDir => body_with_names(0, 1),
        Opcode::MkDir | Opcode::Link => body_with_names(8, 1),
        Opcode::MkNod | Opcode::Create => body_with_names(16, 1),
        Opcode::Rename => body_with_names(8, 2),
        Opcode::Rename2 => body_with_names(16, 2),
        Opcode::StatFs => body_with_names(0, 0),
        Opcode::Forget | Opcode::Open | Opcode::OpenDir | Opcode::Interrupt => body_with_names(
            8, 0,
        ),
        Opcode::GetAttr => body_with_names(16, 0),
        Opcode::Release | Opcode::ReleaseDir => body_with_names(24, 0),
        Opcode::Read | Opcode::ReadDir => body_with_names(40, 0),
        Opcode::SetAttr => body_with_names(88, 0),
        Opcode::Flush
        | Opcode::Fsync
        | Opcode::FsyncDir
        | Opcode::Access
        | Opcode::SymLink
        | Opcode::Destroy
        | Opcode::Other(_) => Body::Longer { fields: 0 },
    }
}

fn body_with_names(fields: usize, names: u32) -> Body
    ensures { result ≡ layout.Named fields names }
{
    Body::Named { fields, names }
}

fn body_with_count(fields: usize, place: usize, each: u32) -> Body
    ensures { result ≡ layout.Counted fields place each }
{
    Body::Counted {
        fields,
        place,
        each,
    }
}

/// Checks that the bytes are a body of this layout. Refused with the reason, where they are not.
pub fn check_body(body: Body, bytes: &[u8]) -> Result<(), WireError>
    requires { IsSound body }
    ensures right { OnOk result (IsLaidOut body bytes.now) }
    ensures wrong { IfErr result (λ e. IsWrongBody body bytes.now e) }
{
    match body {
        Body::Named { fields, names } => check_names(fields, names, bytes),
        Body::Counted {
            fields,
            place,
            each,
        } => check_count(fields, place, each, bytes),
        Body::Longer { fields } => check_fields(fields, bytes),
    }
}

fn check_names(fields: usize, names: u32, bytes: &[u8]) -> Result<(), WireError>
    ensures right { OnOk result (IsLaidOut (layout.Named fields names) bytes.now) }
    ensures wrong { IfErr result (λ e. IsWrongBody (layout.Named fields names) bytes.now e) }
{
    if bytes.len() < fields {
        return Err(WireError::ShortBody);
    }
    match behind_names(names, &bytes[fields..]) {
        None => Err(WireError::UnclosedName),
        Some([]) => Ok(()),
        Some(_) => Err(WireError::LongBody),
    }
}

fn check_count(fields: usize, place: usize, each: u32, bytes: &[u8]) -> Result<(), WireError>
    requires { place + 4 ≤ fields }
    ensures right { OnOk result (IsLaidOut (layout.Counted fields place each) bytes.now) }
    ensures wrong { IfErr result (λ e. IsWrongBody (layout.Counted fields place each) bytes.now e) }
{
    if bytes.len() < fields {
        return Err(WireError::ShortBody);
    }
    let len = (bytes.len() - fields) as u64;
    if len != each as u64 * u32_at(bytes, place) as u64 {
        return Err(WireError::WrongCount);
    }
    Ok(())
}

fn check_fields(fields: usize, bytes: &[u8]) -> Result<(), WireError>
    ensures right { OnOk result (IsLaidOut (layout.Longer fields) bytes.now) }
    ensures wrong { IfErr result (λ e. IsWrongBody (layout.Longer fields) bytes.now e) }
{
    if bytes.len() < fields {
        return Err(WireError::ShortBody);
    }
    Ok(())
}
