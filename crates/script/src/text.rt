// The text of a row.
ghost use Rattle.std.specs.Prelude.{◌<◌, IfSome, length};

use crate::{is_plain, run_len};
use std::alloc::Global;
use std::fmt::Display;
use update_log::in_file_graph::Kind;

/// A text that is put together piece by piece. A piece for which there is no memory is left out, and the text is then cut.
#[derive(Drop)]
pub struct Text {
    text: String,
    is_cut: bool,
}

impl Text {
    /// Begins an empty text.
    pub fn new(alloc: Global) -> Self {
        Text {
            text: String::new(alloc),
            is_cut: false,
        }
    }

    /// Whether a piece was left out, or there was no memory for what it should say.
    pub fn is_cut(&self) -> bool {
        self.is_cut
    }

    /// Notes that there was no memory.
    pub fn cut(&mut self) {
        self.is_cut = true;
    }

    /// Lends the text.
    pub fn as_str(&self) -> &str {
        &self.text
    }

    /// Returns the text.
    pub fn into_string(self) -> String {
        self.text
    }

    /// Empties the text, which is then not cut.
    pub fn clear(&mut self) {
        self.text.clear();
        self.is_cut = false;
    }

    /// Appends a piece. If there is no memory for it, the text is cut.
    pub fn put(&mut self, piece: &str) {
        let is_put = self.text.push_str(piece).is_ok();
        self.is_cut |= !is_put;
    }

    /// Some words, and a value behind them.
    pub fn field<T: Display>(&mut self, words: &str, value: &T) {
        let is_put = write!(self.text, "{words}{value}").is_ok();
        self.is_cut |= !is_put;
    }

    /// A name. Bytes from 0x21 to 0x7e but `%` stand as they are, all others as `%hh`.
    pub fn name(&mut self, name: &[u8]) {
        for byte in name {
            if is_plain(*byte) {
                let is_put = self.text.push(char::from(*byte)).is_ok();
                self.is_cut |= !is_put;
            } else {
                self.hex("%", *byte);
            }
        }
    }

    /// Bytes as runs `hhxN` joined by `+`, or `-` where there is none.
    pub fn data(&mut self, bytes: &[u8]) {
        let mut rest = bytes;
        let mut joint = "";
        while let Some((byte, count, behind)) = first_run(rest) {
            self.hex(joint, byte);
            self.field("x", &count);
            rest = behind;
            joint = "+";
        }
        if bytes.is_empty() {
            self.put("-");
        }
    }

    /// An entry of a directory.
    pub fn entry(&mut self, name: &[u8], inode: u32, kind: Kind) {
        self.put(" ");
        self.name(name);
        self.field(" ", &inode);
        self.kind(" ", kind);
    }

    /// What a node is, behind some words.
    pub fn kind(&mut self, words: &str, kind: Kind) {
        self.put(words);
        self.put(match kind {
            Kind::File => "file",
            Kind::Directory => "directory",
        });
    }

    fn hex(&mut self, words: &str, byte: u8) {
        let is_put = write!(self.text, "{words}{byte:02x}").is_ok();
        self.is_cut |= !is_put;
    }
}

// The byte in front, how often it stands there in a row, and what stands behind.
fn first_run(bytes: &[u8]) -> Option<(u8, usize, &[u8])>
    ensures { IfSome result (λ r. length r.2.now < length bytes.now) }
{
    match bytes {
        [byte, rest @ ..] => {
            let more = run_len(*byte, rest);
            Some((*byte, more + 1, &rest[more..]))
        }
        [] => None,
    }
}
