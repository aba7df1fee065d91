// The second words of the lines of notes.

ghost use Rattle.std.specs.Prelude.{◌≡◌, find, List, ℕ};
ghost use Rattle.std.specs.Str.{bytes_eq};
ghost use Rattle.journal_value.specs.Exact.{Anything, Exact};
ghost use Rattle.journal_value.specs.Words.{every_verb, verb_text};
ghost use Rattle.journal_value.specs.declared.note_verb.NoteVerb.{NoteVerb};

/// The word behind the `>` of a note's line, which says what was noted.
#[derive(Clone, Copy, PartialEq, Eq)]
pub enum NoteVerb {
    Connect,
    Sleep,
    History,
    Log,
    Pass,
    Fired,
    Reuse,
    Finish,
    HalfClose,
    CloseServer,
    CloseClient,
    Ended,
}

impl NoteVerb {
    /// All of them.
    pub const ALL: [NoteVerb; 12] = [
        NoteVerb::Connect,
        NoteVerb::Sleep,
        NoteVerb::History,
        NoteVerb::Log,
        NoteVerb::Pass,
        NoteVerb::Fired,
        NoteVerb::Reuse,
        NoteVerb::Finish,
        NoteVerb::HalfClose,
        NoteVerb::CloseServer,
        NoteVerb::CloseClient,
        NoteVerb::Ended,
    ];

    /// Its spelling.
    pub fn text(self) -> &'static [u8]
        ensures { result.now ≡ verb_text self }
    {
        match self {
            NoteVerb::Connect => b"connect",
            NoteVerb::Sleep => b"sleep",
            NoteVerb::History => b"history",
            NoteVerb::Log => b"log",
            NoteVerb::Pass => b"pass",
            NoteVerb::Fired => b"fired",
            NoteVerb::Reuse => b"reuse",
            NoteVerb::Finish => b"finish",
            NoteVerb::HalfClose => b"half-close",
            NoteVerb::CloseServer => b"close-server",
            NoteVerb::CloseClient => b"close-client",
            NoteVerb::Ended => b"ended",
        }
    }
}

/// The verb of this spelling.
pub fn read_verb(word: &[u8]) -> Option<NoteVerb>
    ensures { Exact NoteVerb (List ℕ) verb_text Anything word.now result }
{
    verb_at(word)
}

fn verb_at(word: &[u8]) -> Option<NoteVerb>
    ensures { result ≡ find (λ verb. bytes_eq (verb_text verb) word.now) every_verb }
{
    NoteVerb::ALL
        .iter()
        .copied()
        .find(|verb| verb.text() == word)
}
