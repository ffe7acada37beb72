//! What the lines of a row say: texts in memory, calls, and what these give.

use sp_base::{List, Memory, Text, Writer};
use sp_outside::MemoryLibrary;
use std::alloc::Global;

/// The text that a line `more` or `times` goes on with.
#[derive(Clone, Copy)]
enum Part {
    Text,
    Journal,
    Input,
}

/// What the lines so far have set, and no later one has set anew.
#[derive(Drop)]
pub struct Row {
    alloc: Global,
    /// The text under the names `a.sp` and `-a`.
    text: Writer<u8>,
    /// The text under the name `j`.
    journal: Writer<u8>,
    input: Writer<u8>,
    part: Part,
    /// The calls, with a semicolon between two.
    pub calls: String,
    pub status: String,
    /// The output as it stands in its line; a star: any output.
    pub output: String,
    // Whether memory was refused for one of these.
    is_lost: bool,
}

impl Row {
    pub fn new(alloc: Global) -> Row {
        Row {
            alloc,
            text: Writer::new(alloc),
            journal: Writer::new(alloc),
            input: Writer::new(alloc),
            part: Part::Text,
            calls: String::new(alloc),
            status: String::new(alloc),
            output: String::new(alloc),
            is_lost: false,
        }
    }

    /// Reads a line that sets something: its word, and what stands behind it.
    pub fn set(&mut self, word: &str, rest: &str) {
        match word {
            "text" => {
                self.text = bytes_of(self.alloc, rest);
                self.part = Part::Text;
            }
            "journal" => {
                self.journal = bytes_of(self.alloc, rest);
                self.part = Part::Journal;
            }
            "input" => {
                self.input = bytes_of(self.alloc, rest);
                self.part = Part::Input;
            }
            "calls" => self.calls = self.copy_of(rest),
            "status" => self.status = self.copy_of(rest),
            "output" => self.output = self.copy_of(rest),
            "more" => self.add(1, rest),
            "times" => {
                let (times, part) = rest.split_once(' ').unwrap_or(("0", ""));
                self.add(times.parse::<u32>().unwrap_or(0), part);
            }
            _ => {}
        }
    }

    fn copy_of(&mut self, text: &str) -> String {
        match String::from_str(self.alloc, text) {
            Ok(copy) => copy,
            Err(_) => {
                self.is_lost = true;
                String::new(self.alloc)
            }
        }
    }

    // Adds a part so many times.
    fn add(&mut self, times: u32, part: &str) {
        let part = bytes_of(self.alloc, part);
        for _ in 0..times {
            match self.part {
                Part::Text => self.text.extend(part.items.as_slice()),
                Part::Journal => self.journal.extend(part.items.as_slice()),
                Part::Input => self.input.extend(part.items.as_slice()),
            }
        }
    }

    /// The text and the journal as files.
    pub fn library(&self) -> Result<MemoryLibrary, Memory> {
        let mut files = Writer::new(self.alloc);
        put_file(&mut files, "a.sp", &self.text);
        put_file(&mut files, "-a", &self.text);
        put_file(&mut files, "j", &self.journal);
        let files = List::of(files.finish()?);
        Ok(MemoryLibrary::new(files, List::new(self.alloc)))
    }

    /// A copy of the input.
    pub fn input(&self) -> Result<Vec<u8>, Memory> {
        if self.is_lost || self.input.is_lost {
            return Err(Memory);
        }
        Ok(Vec::from_slice(self.alloc, self.input.items.as_slice())?)
    }

    /// Takes these bytes for the journal.
    pub fn keep(&mut self, written: &[u8]) {
        self.journal.items.clear();
        self.journal.extend(written);
    }
}

// Puts a file with this name and text.
fn put_file(files: &mut Writer<(Text, Text)>, name: &str, text: &Writer<u8>) {
    if text.is_lost {
        return files.lose();
    }
    let alloc = *files.items.allocator();
    match Vec::from_slice(alloc, name.as_bytes()) {
        Ok(name) => match Vec::from_slice(alloc, text.items.as_slice()) {
            Ok(text) => files.put((Text::of(name), Text::of(text))),
            Err(_) => files.lose(),
        },
        Err(_) => files.lose(),
    }
}

/// The bytes that stand in a line, in which `\n` is a line feed and `\s` a blank.
pub fn bytes_of(alloc: Global, line: &str) -> Writer<u8> {
    let mut all = Writer::new(alloc);
    let mut is_behind = false;
    for byte in line.as_bytes() {
        if is_behind {
            all.put(if *byte == b'n' { b'\n' } else { b' ' });
            is_behind = false;
        } else if *byte == b'\\' {
            is_behind = true;
        } else {
            all.put(*byte);
        }
    }
    all
}
