// The report of the rows that do not hold.
use std::alloc::Global;
use std::fmt::Display;

/// A text that is put together piece by piece. A piece for which there is no memory is left out.
#[derive(Drop)]
pub struct Report {
    alloc: Global,
    text: String,
}

impl Report {
    /// Begins an empty text.
    pub fn new(alloc: Global) -> Self {
        Report {
            alloc,
            text: String::new(alloc),
        }
    }

    /// Lends the text.
    pub fn as_str(&self) -> &str {
        &self.text
    }

    /// Some words, and a value behind them.
    pub fn say<T: Display>(&mut self, words: &str, value: &T) {
        let _ = write!(self.text, "{words}{value}");
    }

    /// A line of a text, which may be none.
    pub fn line(&mut self, line: Option<&[u8]>) {
        match line {
            Some(line) => self.bytes(line),
            None => self.say("  not there", &""),
        }
        self.say("\n", &"");
    }

    fn bytes(&mut self, bytes: &[u8]) {
        if let Ok(text) = String::from_utf8_lossy(self.alloc, bytes) {
            self.say("    ", &text);
        }
    }
}
