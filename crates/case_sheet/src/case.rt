//! One case.

use crate::signs::push_line;
use std::alloc::{AllocError, Global};

/// A case of a sheet.
pub struct Case {
    /// Its name.
    pub name: String,
    /// The words of the call.
    pub words: Vec<String>,
    /// What else is to hold at the call, in words.
    pub setting: String,
    /// What is read.
    pub input: Vec<u8>,
    /// The exit status that is wanted.
    status: Option<u8>,
    /// The bytes of the whole answer, or of its start where it is open.
    answer: Vec<u8>,
    /// Whether only the start and the end of the answer are known.
    is_open: bool,
    /// The bytes of its end where it is open.
    end: Vec<u8>,
    /// The lines that are to be repeated.
    repeated: Repeated,
}

/// A case is let go by a call, so that the proofs of the programs do not go through its parts.
impl Drop for Case {
    fn drop(self) {
        let Case {
            name: _name,
            words: _words,
            setting: _setting,
            input: _input,
            status: _,
            answer: _answer,
            is_open: _,
            end: _end,
            repeated: _repeated,
        } = self;
    }
}

/// Lines that are to be repeated, and the first and the last number.
#[derive(Drop)]
struct Repeated {
    is_open: bool,
    first: u32,
    last: u32,
    lines: Vec<String>,
}

/// The words of a text, which blanks separate.
fn words_in(alloc: Global, text: &str) -> Result<Vec<String>, AllocError> {
    let mut words = Vec::new(alloc);
    for word in text.split_whitespace() {
        words.push(String::from_str(alloc, word)?)?;
    }
    Ok(words)
}

/// What stands before a sign and what stands after it, nothing where it is not there.
fn parted(text: &str, sign: char) -> (&str, &str) {
    match text.split_once(sign) {
        Some(parts) => parts,
        None => (text, ""),
    }
}

impl Repeated {
    fn new(alloc: Global) -> Repeated {
        Repeated {
            is_open: false,
            first: 0,
            last: 0,
            lines: Vec::new(alloc),
        }
    }

    /// Begins a repetition by its bounds.
    fn open(&mut self, bounds: &str) {
        let (first, last) = parted(bounds, ' ');
        self.is_open = true;
        self.first = first.parse().unwrap_or(1);
        self.last = last.parse().unwrap_or(0);
        self.lines.clear();
    }

    /// Ends the repetition, whose lines are appended for each number.
    fn close(&mut self, bytes: &mut Vec<u8>) -> Result<(), AllocError> {
        self.is_open = false;
        for number in self.first..=self.last {
            for line in &self.lines {
                push_line(bytes, line.as_str(), number)?;
            }
        }
        Ok(())
    }
}

impl Case {
    /// A case by its head, with no input yet.
    pub(crate) fn headed(alloc: Global, head: &str) -> Result<Case, AllocError> {
        let (name, rest) = parted(head, ':');
        let (words, setting) = parted(rest, ';');
        Ok(Case {
            name: String::from_str(alloc, name)?,
            words: words_in(alloc, words)?,
            setting: String::from_str(alloc, setting.trim())?,
            input: Vec::new(alloc),
            status: None,
            answer: Vec::new(alloc),
            is_open: false,
            end: Vec::new(alloc),
            repeated: Repeated::new(alloc),
        })
    }

    /// Takes a line after the head.
    pub(crate) fn take(&mut self, alloc: Global, line: &str) -> Result<(), AllocError> {
        match line.strip_prefix("---- ") {
            Some(status) => {
                self.take_status(status);
                Ok(())
            }
            None => self.take_line(alloc, line),
        }
    }

    /// Takes the line after the input.
    fn take_status(&mut self, line: &str) {
        let (status, end) = parted(line, ' ');
        self.status = status.parse().ok();
        self.is_open = end == "end";
    }

    /// Takes a line of the input or of the answer.
    fn take_line(&mut self, alloc: Global, line: &str) -> Result<(), AllocError> {
        if let Some(bounds) = line.strip_prefix("@@@@ ") {
            self.repeated.open(bounds);
            return Ok(());
        }
        if line == "@@@@" {
            return self.close_repeated();
        }
        if self.repeated.is_open {
            self.repeated.lines.push(String::from_str(alloc, line)?)?;
            return Ok(());
        }
        if self.status.is_some() {
            self.take_answer_line(line)
        } else {
            push_line(&mut self.input, line, 0)
        }
    }

    /// Ends a repetition in the input, in the answer, or in its end where it is open.
    fn close_repeated(&mut self) -> Result<(), AllocError> {
        if self.status.is_none() {
            self.repeated.close(&mut self.input)
        } else if self.is_open {
            self.repeated.close(&mut self.end)
        } else {
            self.repeated.close(&mut self.answer)
        }
    }

    /// Takes a line of the answer.
    fn take_answer_line(&mut self, line: &str) -> Result<(), AllocError> {
        if line == "~~~~" {
            self.is_open = true;
            return Ok(());
        }
        if self.is_open {
            push_line(&mut self.end, line, 0)
        } else {
            push_line(&mut self.answer, line, 0)
        }
    }

    /// Tests that a status and the bytes of an answer are what is wanted.
    pub fn is_met(&self, status: u8, answer: &[u8]) -> bool {
        let is_told = match answer.strip_prefix(self.answer.as_slice()) {
            Some(rest) if self.is_open => rest.ends_with(self.end.as_slice()),
            Some(rest) => rest.is_empty(),
            None => false,
        };
        is_told && self.status == Some(status)
    }
}
