// Texts that are read and printed.

use config::{ConfigError, ConfigFault, LoadedConfig, read_config};
use px_bytes::{Pairs, Text};
use px_outside::{Counts, MemFiles};
use questions::Question;
use tmsh_text::{PrintFault, TmshFault, print_tmsh, tmsh_table};
use toml::{Table, table_from_slice};
use toml_text::table_text;

/// The name of the file that holds a document.
const NAME: &[u8] = b"config.toml";

pub fn answer(question: &mut Question<'_>) {
    match question.word() {
        "tmsh_table" => table_answer(question),
        "print_tmsh" => print_answer(question),
        "to_toml" => document_answer(question),
        _ => question.unknown(),
    }
}

fn say_table(question: &mut Question<'_>, table: &Table) {
    let text = table_text(question.alloc, table);
    question.say("ok");
    question.say_made_hex(text);
}

fn say_place(question: &mut Question<'_>, word: &str, place: usize) {
    question.say(word);
    question.say_number(place as u64);
}

// The number and the place of a fault of a configuration.
fn say_config(question: &mut Question<'_>, word: &str, fault: &ConfigFault) {
    question.say(word);
    question.say_number(u64::from(fault.kind.number()));
    question.say_hex(fault.place.as_bytes());
}

fn table_answer(question: &mut Question<'_>) {
    let text = question.text();
    let mut files = MemFiles::new(Pairs::new(question.alloc), Counts::new(question.alloc));
    match tmsh_table(question.alloc, &mut files, text.as_bytes()) {
        Ok(table) => say_table(question, &table),
        Err(TmshFault::NotUtf8(at)) => say_place(question, "fault 1", at),
        Err(TmshFault::Form(at)) => say_place(question, "fault 2", at),
        Err(TmshFault::Config(fault)) => say_config(question, "fault 3", &fault),
        Err(TmshFault::Memory) => question.refuse(),
    }
}

// The configuration of a document.
fn loaded(question: &mut Question<'_>) -> Result<LoadedConfig, ConfigError> {
    let alloc = question.alloc;
    let text = question.text();
    let mut named = Pairs::new(alloc);
    named.push((Text::new(alloc, NAME)?, text))?;
    let mut files = MemFiles::new(named, Counts::new(alloc));
    read_config(alloc, &mut files, NAME)
}

fn print_answer(question: &mut Question<'_>) {
    match loaded(question) {
        Ok(config) => say_printed(question, &config),
        Err(ConfigError::Fault(fault)) => say_config(question, "config", &fault),
        Err(ConfigError::Memory) => question.refuse(),
    }
}

fn say_printed(question: &mut Question<'_>, config: &LoadedConfig) {
    match print_tmsh(question.alloc, config) {
        Ok(text) => {
            question.say("ok");
            question.say_hex(text.as_bytes());
        }
        Err(PrintFault::Unbalanced(at)) => say_place(question, "unbalanced", at),
        Err(PrintFault::NotUtf8(at)) => say_place(question, "not_utf8", at),
        Err(PrintFault::Memory) => question.refuse(),
    }
}

fn document_answer(question: &mut Question<'_>) {
    let text = question.text();
    match table_from_slice(question.alloc, text.as_bytes()) {
        Ok(table) => say_table(question, &table),
        Err(_) => question.unknown(),
    }
}
