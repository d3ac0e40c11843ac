ghost use Rattle.std.specs.Prelude.{◌≡◌};
ghost use Rattle.fuse_wire.specs.Opcodes.{opcode_of};

/// Which request a message is (`enum fuse_opcode`): those that are read, and all others by their number.
#[derive(Clone, Copy)]
pub enum Opcode {
    Init,
    Lookup,
    Forget,
    BatchForget,
    GetAttr,
    SetAttr,
    MkNod,
    MkDir,
    Unlink,
    RmDir,
    Rename,
    Rename2,
    Link,
    Open,
    Create,
    Read,
    Write,
    Release,
    StatFs,
    OpenDir,
    ReadDir,
    ReleaseDir,
    Interrupt,
    Flush,
    Fsync,
    FsyncDir,
    Access,
    SymLink,
    Destroy,
    Other(u32),
}

/// Returns the opcode of a number of the protocol; `Other` for one that has none here.
pub fn opcode_of(number: u32) -> Opcode
    ensures { result ≡ opcode_of number }
{
    match number {
        1 => Opcode::Lookup,
        2 => Opcode::Forget,
        3 => Opcode::GetAttr,
        4 => Opcode::SetAttr,
        6 => Opcode::SymLink,
        8 => Opcode::MkNod,
        9 => Opcode::MkDir,
        10 => Opcode::Unlink,
        11 => Opcode::RmDir,
        12 => Opcode::Rename,
        13 => Opcode::Link,
        14 => Opcode::Open,
        15 => Opcode::Read,
        16 => Opcode::Write,
        17 => Opcode::StatFs,
        18 => Opcode::Release,
        20 => Opcode::Fsync,
        25 => Opcode::Flush,
        26 => Opcode::Init,
        27 => Opcode::OpenDir,
        28 => Opcode::ReadDir,
        29 => Opcode::ReleaseDir,
        30 => Opcode::FsyncDir,
        34 => Opcode::Access,
        35 => Opcode::Create,
        36 => Opcode::Interrupt,
        38 => Opcode::Destroy,
        42 => Opcode::BatchForget,
        45 => Opcode::Rename2,
        _ => Opcode::Other(number),
    }
}
