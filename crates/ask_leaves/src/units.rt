// Bodies of messages, unit by unit.

use crate::bodies::say_fault;
use http_frames::{BodyState, Unit, go_on, next_unit};
use px_bytes::read_decimal;
use questions::Question;

/// The most units that are asked of one stream.
const MOST_UNITS: usize = 1_000_000;

/// The next unit of what is held.
pub fn next_answer(question: &mut Question<'_>) {
    let state = state(question);
    let ended = question.word() == "ended";
    let held = question.text();
    say_unit(question, next_unit(state, held.as_bytes(), ended));
}

fn state(question: &mut Question<'_>) -> BodyState {
    match state_of(question.word()) {
        Some(state) => state,
        None => {
            question.unknown();
            BodyState::ToEnd
        }
    }
}

fn state_of(word: &str) -> Option<BodyState> {
    match word {
        "first_line" => Some(BodyState::FirstLine),
        "next_line" => Some(BodyState::NextLine),
        "to_end" => Some(BodyState::ToEnd),
        _ => counted_state(word),
    }
}

fn counted_state(word: &str) -> Option<BodyState> {
    let (kind, count) = word.split_once(':')?;
    let count = read_decimal(count.as_bytes(), u64::MAX)?;
    match kind {
        "left" => Some(BodyState::Left(count)),
        "chunk" => Some(BodyState::Chunk(count)),
        _ => None,
    }
}

fn say_unit(question: &mut Question<'_>, unit: Unit) {
    match unit {
        Unit::Piece(size) => say_sized(question, "piece", size),
        Unit::ChunkLine { line, size } => {
            say_sized(question, "line", line);
            question.say_number(size);
        }
        Unit::Finished(size) => say_sized(question, "finished", size),
        Unit::NotYet => question.say("notyet"),
        Unit::Fault(fault) => say_fault(question, fault),
    }
}

fn say_sized(question: &mut Question<'_>, unit: &str, size: usize) {
    question.say(unit);
    question.say_number(size as u64);
}

/// A stream that comes in fragments, and what is held of it.
#[derive(Drop)]
struct Reader {
    state: BodyState,
    held: Vec<u8>,
    // The bytes of neighbouring pieces.
    piece: Vec<u8>,
    over: bool,
}

/// The units of a stream that comes in fragments.
pub fn answer(question: &mut Question<'_>) {
    let mut reader = Reader {
        state: state(question),
        held: Vec::new(question.alloc),
        piece: Vec::new(question.alloc),
        over: false,
    };
    let ended = question.word() == "ended";
    let count = question.left();
    if count == 0 {
        reader.take_units(question, ended);
    }
    for _ in 0..count {
        reader.take_fragment(question, ended);
    }
    reader.end(question);
}

impl Reader {
    fn take_fragment(&mut self, question: &mut Question<'_>, ended: bool) {
        let bytes = question.text();
        if self.held.extend_from_slice(bytes.as_bytes()).is_err() {
            question.refuse();
        }
        self.take_units(question, ended && question.left() == 0);
    }

    // Takes all units off what is held.
    fn take_units(&mut self, question: &mut Question<'_>, ended: bool) {
        for _ in 0..MOST_UNITS {
            let unit = next_unit(self.state, &self.held, ended);
            if self.over || unit == Unit::NotYet {
                break;
            }
            self.take_unit(question, unit);
            self.state = go_on(self.state, unit);
        }
    }

    fn take_unit(&mut self, question: &mut Question<'_>, unit: Unit) {
        if let Unit::Piece(size) = unit {
            self.take_piece(question, size);
            return;
        }
        self.say_piece(question);
        say_unit(question, unit);
        match unit {
            Unit::ChunkLine { line, .. } => self.let_go(line),
            _ => self.over = true,
        }
    }

    fn take_piece(&mut self, question: &mut Question<'_>, size: usize) {
        let size = size.min(self.held.len());
        if self.piece.extend_from_slice(&self.held[..size]).is_err() {
            question.refuse();
        }
        self.let_go(size);
    }

    fn let_go(&mut self, size: usize) {
        let size = size.min(self.held.len());
        let _ = self.held.drain(..size);
    }

    fn say_piece(&mut self, question: &mut Question<'_>) {
        if !self.piece.is_empty() {
            question.say("piece");
            question.say_text(&self.piece);
            self.piece.clear();
        }
    }

    fn end(&mut self, question: &mut Question<'_>) {
        self.say_piece(question);
        if !self.over {
            question.say("notyet");
        }
    }
}
