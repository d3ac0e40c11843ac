// The byte of a kind, in records and in the blocks of the shared media.
ghost use Rattle.std.specs.Prelude.{◌≡◌, option_map};
ghost use Rattle.file_graph.specs.declared.effect.Kind.TheVariants as kind;
ghost use Rattle.file_graph.specs.Kinds.{kind_byte, kind_field};

use crate::effect::Kind;
use crate::field_reads::byte_of;

/// The byte of the kind of a file.
pub const FILE_KIND: u8 = 1;

/// The byte of the kind of a directory.
pub const DIRECTORY_KIND: u8 = 2;

/// The byte of a kind.
pub fn kind_byte(kind: Kind) -> u8
    ensures { result ≡ kind_byte kind }
{
    match kind {
        Kind::File => FILE_KIND,
        Kind::Directory => DIRECTORY_KIND,
    }
}

/// The kind whose byte is at the front of bytes, and the bytes behind it; none where the first byte is of no kind.
pub fn read_kind(bytes: &[u8]) -> Option<(Kind, &[u8])>
    ensures { option_map (λ x. (x.0, x.1.now)) result ≡ kind_field bytes.now }
{
    let (byte, rest) = byte_of(bytes)?;
    match byte {
        FILE_KIND => Some((Kind::File, rest)),
        DIRECTORY_KIND => Some((Kind::Directory, rest)),
        _ => None,
    }
}

/// The bytes of both kinds, each as a number.
pub fn kinds_have_their_bytes()
    ensures file { kind_byte kind.File ≡ 1 }
    ensures directory { kind_byte kind.Directory ≡ 2 }
{}
