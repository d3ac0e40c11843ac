// The texts of a table.
use script::hex_byte;
use std::alloc::Global;
use std::io::Write;

/// The bytes that texts of a table spell.
#[derive(Drop)]
pub struct Spelled {
    pub bytes: Vec<u8>,
    /// Whether a text can't be read, or there was no memory for it.
    pub is_bad: bool,
}

impl Spelled {
    /// Begins with no bytes.
    pub fn new(alloc: Global) -> Self {
        Spelled {
            bytes: Vec::new(alloc),
            is_bad: false,
        }
    }

    /// A line with its newline; one that ends in `\c` has none.
    pub fn add_line(&mut self, text: &str, number: u64) {
        match text.strip_suffix("\\c") {
            Some(text) => self.add_spelled(text, number),
            None => {
                self.add_spelled(text, number);
                self.add(b"\n");
            }
        }
    }

    // Adds the bytes that a text spells. A `\` stands before what can't be written as it is: `\xhh` is a byte, `\{TEXT*N}` a text
    // N times, `\i` the number of a line that is written many times, and `\e` nothing.
    fn add_spelled(&mut self, text: &str, number: u64) {
        let (front, escapes) = text.split_once('\\').unwrap_or((text, "e"));
        self.add(front.as_bytes());
        for part in escapes.split('\\') {
            self.add_escape(part, number);
        }
    }

    fn add(&mut self, bytes: &[u8]) {
        if self.bytes.extend_from_slice(bytes).is_err() {
            self.is_bad = true;
        }
    }

    // What stands behind a `\`, up to the next one.
    fn add_escape(&mut self, part: &str, number: u64) {
        if let Some(rest) = part.strip_prefix('e') {
            return self.add(rest.as_bytes());
        }
        if let Some(rest) = part.strip_prefix('i') {
            if write!(self.bytes, "{number}{rest}").is_err() {
                self.is_bad = true;
            }
            return;
        }
        match part.strip_prefix('{') {
            Some(rest) => self.add_repeated(rest),
            None => self.add_byte(part.as_bytes()),
        }
    }

    // `xhh`, and what stands behind.
    fn add_byte(&mut self, part: &[u8]) {
        match part {
            [b'x', high, low, rest @ ..] => match hex_byte(*high, *low) {
                Some(byte) => {
                    self.add(&[byte]);
                    self.add(rest);
                }
                None => self.is_bad = true,
            },
            _ => self.is_bad = true,
        }
    }

    // `TEXT*N}`, and what stands behind.
    fn add_repeated(&mut self, part: &str) {
        let (inside, rest) = part.split_once('}').unwrap_or(("", ""));
        let (text, count) = inside.rsplit_once('*').unwrap_or(("", ""));
        match count.parse::<u64>() {
            Ok(count) => {
                for _ in 0..count {
                    self.add(text.as_bytes());
                }
            }
            Err(_) => self.is_bad = true,
        }
        self.add(rest.as_bytes());
    }
}
