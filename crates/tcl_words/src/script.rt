// Scripts as they stand in the text, with the place of each piece.

use px_bytes::Text;

/// The bytes of the text given from one place up to another, the first byte being at 0.
#[derive(Clone, Copy, PartialEq, Eq)]
pub struct Span {
    pub start: usize,
    pub end: usize,
}

/// Commands in order.
#[cycle(script)]
#[derive(Drop)]
pub struct Script {
    pub commands: Vec<ScriptCommand>,
}

/// Words in order, the first the command's name. The span goes from the first word's first byte to
/// the last word's end.
#[cycle(script)]
#[derive(Drop)]
pub struct ScriptCommand {
    pub span: Span,
    pub words: Vec<Word>,
}

/// How a word is written.
#[derive(Clone, Copy, PartialEq, Eq)]
pub enum Form {
    Bare,
    Quoted,
    Braced,
}

/// A word. `span` has its quotes or braces and `inner` hasn't. `raw` is the bytes of `inner` in the
/// source, where the word has no substitution: it stands in braces, or has no variable, bracket or
/// backslash. An empty word has one plain part with the empty text.
#[cycle(script)]
#[derive(Drop)]
pub struct Word {
    pub span: Span,
    pub form: Form,
    pub inner: Span,
    pub raw: Option<Text>,
    pub parts: Vec<Part>,
}

/// A piece of a word: a text as it stands, the value of a variable or of an array's element, or the
/// result of a script in brackets.
#[cycle(script)]
#[derive(Drop)]
pub enum Part {
    Plain {
        span: Span,
        text: Text,
    },
    Variable {
        span: Span,
        name: Text,
    },
    Element {
        span: Span,
        name: Text,
        index: Vec<Part>,
    },
    Bracket {
        span: Span,
        script: Script,
    },
}
