// Answers as they stand in a line.

use crate::Question;
use px_bytes::{Addr, M, Memory, Raise, Reply, TclFault, Text, Texts, print_addr, print_hex};

/// The most bytes of a text that an answer writes out.
const WRITTEN: usize = 600;

impl Question<'_> {
    // A blank, where anything is answered.
    fn blank(&mut self) {
        if self.is_answered() {
            self.put(b" ");
        }
    }

    /// A further word of the answer.
    pub fn say(&mut self, word: &str) {
        self.blank();
        self.put(word.as_bytes());
    }

    /// A number in decimal.
    pub fn say_number(&mut self, number: u64) {
        self.blank();
        self.put_number(number);
    }

    /// An address and a port, or `none`.
    pub fn say_address(&mut self, addr: Option<Addr>) {
        match addr {
            Some(addr) => {
                self.blank();
                self.put_made(print_addr(self.alloc, addr));
            }
            None => self.say("none"),
        }
    }

    /// `true` or `false`.
    pub fn say_truth(&mut self, holds: bool) {
        self.say(if holds { "true" } else { "false" });
    }

    /// Bytes in hexadecimal, where there are any.
    pub fn say_bytes(&mut self, bytes: &[u8]) {
        self.blank();
        self.put_bytes(bytes);
    }

    /// Bytes in hexadecimal, however many.
    pub fn say_hex(&mut self, bytes: &[u8]) {
        self.blank();
        self.put_hex(bytes);
    }

    /// A text that was made, in hexadecimal, unless memory was refused.
    pub fn say_made_hex(&mut self, text: M<Text>) {
        match text {
            Ok(text) => self.say_hex(text.as_bytes()),
            Err(Memory) => self.refuse(),
        }
    }

    /// Bytes in hexadecimal, or `-`.
    pub fn say_text(&mut self, bytes: &[u8]) {
        if bytes.is_empty() {
            self.say("-");
        } else {
            self.say_bytes(bytes);
        }
    }

    /// A text that was made, unless memory was refused.
    pub fn say_made(&mut self, text: M<Text>) {
        match text {
            Ok(text) => self.say_text(text.as_bytes()),
            Err(Memory) => self.refuse(),
        }
    }

    /// `ok` and a text that was made.
    pub fn say_written(&mut self, text: M<Text>) {
        self.say("ok");
        self.say_made(text);
    }

    /// Texts that were made, or none where memory was refused.
    pub fn made_texts(&mut self, texts: M<Texts>) -> Texts {
        match texts {
            Ok(texts) => texts,
            Err(Memory) => {
                self.refuse();
                Texts::new(self.alloc)
            }
        }
    }

    /// The number of texts, and each.
    pub fn say_texts(&mut self, texts: &[Text]) {
        self.say_number(texts.len() as u64);
        for text in texts {
            self.say_text(text.as_bytes());
        }
    }

    /// The number of pairs, and both texts of each.
    pub fn say_pairs(&mut self, pairs: &[(Text, Text)]) {
        self.say_number(pairs.len() as u64);
        for pair in pairs {
            self.say_text(pair.0.as_bytes());
            self.say_text(pair.1.as_bytes());
        }
    }

    /// `fault`, the number of its kind and its text.
    pub fn say_fault(&mut self, fault: &TclFault) {
        self.say("fault");
        self.say_number(fault.kind as u64);
        self.say_bytes(fault.text.as_bytes());
    }

    /// `fault`, the number of its kind and its text, however long.
    pub fn say_whole_fault(&mut self, fault: &TclFault) {
        self.say("fault");
        self.say_number(fault.kind as u64);
        self.say_hex(fault.text.as_bytes());
    }

    /// `ok` and a text however long, or the fault.
    pub fn say_value(&mut self, value: &Result<Text, Raise>) {
        match value {
            Ok(text) => {
                self.say("ok");
                self.say_hex(text.as_bytes());
            }
            Err(Raise::Fault(fault)) => self.say_whole_fault(fault),
            Err(Raise::Memory) => self.refuse(),
        }
    }

    /// `ok`, or the fault.
    pub fn say_done(&mut self, done: &Result<(), Raise>) {
        match done {
            Ok(()) => self.say("ok"),
            Err(Raise::Fault(fault)) => self.say_fault(fault),
            Err(Raise::Memory) => self.refuse(),
        }
    }

    /// `ok=` and a text, or `fault=`, the number of its kind and its text.
    pub fn say_reply(&mut self, reply: &M<Reply>) {
        match reply {
            Ok(Reply::Ok(text)) => {
                self.say("ok=");
                self.put_bytes(text.as_bytes());
            }
            Ok(Reply::Fault(fault)) => {
                self.say("fault=");
                self.put_number(fault.kind as u64);
                self.put(b",");
                self.put_bytes(fault.text.as_bytes());
            }
            Err(Memory) => self.refuse(),
        }
    }

    /// Bytes in hexadecimal, however many, behind what stands.
    pub fn put_hex(&mut self, bytes: &[u8]) {
        self.put_made(print_hex(self.alloc, bytes));
    }

    fn put_bytes(&mut self, bytes: &[u8]) {
        if bytes.len() <= WRITTEN {
            self.put_hex(bytes);
        } else {
            self.put(b"#");
            self.put_number(bytes.len() as u64);
        }
    }

    /// A text that was made, behind what stands, unless memory was refused.
    pub fn put_made(&mut self, text: M<Text>) {
        match text {
            Ok(text) => self.put(text.as_bytes()),
            Err(Memory) => self.refuse(),
        }
    }

    /// A number in decimal, behind what stands.
    pub fn put_number(&mut self, number: u64) {
        match format!(in self.alloc; "{number}") {
            Ok(digits) => self.put(digits.as_bytes()),
            Err(_) => self.refuse(),
        }
    }
}
