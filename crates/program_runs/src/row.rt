// A row of a table of scripts.
use crate::patch::Patch;
use crate::table_text::Spelled;
use std::alloc::Global;

/// A run of a program, and what it is to print.
#[derive(Drop)]
pub struct Row<'a> {
    pub alloc: Global,
    /// What the row shows.
    pub name: &'a str,
    /// The words of the command line, with the program's name in front.
    pub words: Vec<&'a str>,
    /// What is put into the image of the world before the run, in this order.
    pub patches: Vec<Patch>,
    pub script: Spelled,
    /// What standard output is to have.
    pub printed: Spelled,
    pub status: u64,
    /// The line on standard error. Where it begins with two dots, what stands behind them is to be within some line there.
    pub error: &'a str,
    /// Whether a line that is neither of the script nor printed can't be read, or there was no memory for it.
    pub is_bad: bool,
}

impl<'a> Row<'a> {
    /// A row of which nothing is read.
    pub fn new(alloc: Global) -> Self {
        Row {
            alloc,
            name: "",
            words: Vec::new(alloc),
            patches: Vec::new(alloc),
            script: Spelled::new(alloc),
            printed: Spelled::new(alloc),
            status: 0,
            error: "",
            is_bad: false,
        }
    }

    /// Reads a row: its name, and its lines below.
    pub fn read(&mut self, text: &'a str) {
        let (name, lines) = text.split_once('\n').unwrap_or((text, ""));
        self.name = name;
        for line in lines.lines() {
            self.add_line(line);
        }
        if self.words.is_empty() {
            self.add_words("strata_sh");
        }
    }

    fn add_line(&mut self, line: &'a str) {
        let (word, rest) = line.split_once(' ').unwrap_or(("", ""));
        match word {
            "$" => self.add_words(rest),
            "!" => self.set_end(rest),
            "@" => self.add_many(rest),
            "&" => self.add_patch(rest),
            _ => self.add_call(line, 0),
        }
    }

    // The words of the command line.
    fn add_words(&mut self, words: &'a str) {
        for word in words.split(' ') {
            if self.words.push(word).is_err() {
                self.is_bad = true;
            }
        }
    }

    // The exit status, and what is written to standard error.
    fn set_end(&mut self, end: &'a str) {
        let (status, error) = end.split_once(' ').unwrap_or((end, ""));
        self.status = self.number(status);
        self.error = error;
    }

    fn number(&mut self, word: &str) -> u64 {
        match word.parse::<u64>() {
            Ok(number) => number,
            Err(_) => {
                self.is_bad = true;
                0
            }
        }
    }

    // Bytes for the image, `AT DATA`.
    fn add_patch(&mut self, text: &str) {
        let is_added = match Patch::read(self.alloc, text) {
            Some(patch) => self.patches.push(patch).is_ok(),
            None => false,
        };
        self.is_bad |= !is_added;
    }

    // Lines for each number of a range, `FIRST..END LINE | LINE ..`.
    fn add_many(&mut self, many: &str) {
        let (range, lines) = many.split_once(' ').unwrap_or((many, ""));
        let (first, end) = range.split_once("..").unwrap_or((range, ""));
        let first = self.number(first);
        for number in first..self.number(end) {
            self.add_calls(lines, number);
        }
    }

    fn add_calls(&mut self, lines: &str, number: u64) {
        for line in lines.split(" | ") {
            self.add_call(line, number);
        }
    }

    // A line of the script, what it prints, or both.
    fn add_call(&mut self, line: &str, number: u64) {
        if line.is_empty() {
            return;
        }
        if let Some(text) = line.strip_prefix("=>") {
            return self
                .printed
                .add_line(text.strip_prefix(' ').unwrap_or(text), number);
        }
        match line.split_once(" => ") {
            Some((call, answer)) => {
                self.script.add_line(call, number);
                self.printed.add_line(answer, number);
            }
            None => self.script.add_line(line, number),
        }
    }
}
