// Glob patterns.

ghost use Rattle.std.specs.Prelude.{◌≡◌, ◌≤◌, ◌↔◌, [], IsTrue, length};
ghost use Rattle.px_bytes.specs.Glob.{Matches};
ghost use Rattle.px_bytes.specs.GlobTest.{matches, MatchesIsGlob};
ghost use Rattle.px_bytes.specs.GlobRun.{IsRun, Settles, left_of, starred};

use crate::piece::behind_piece;

/// Whether a pattern matches a whole text, as Tcl's `string match` does: `*` stands for any bytes,
/// `?` for one, `[a-z0]` for one of the set, `\x` for x, and another byte for itself, as do a `-`
/// just before the `]` of a set and a `\` that ends the pattern. A `[` without its `]` matches
/// nothing.
///
/// Only the last `*` is ever tried at a further place, so each byte of the pattern is looked at
/// once at most for each place in the text. It takes no memory.
pub fn glob(pattern: &[u8], text: &[u8]) -> bool
    ensures relation { IsTrue result ↔ Matches pattern.now text.now }
    ensures value { result ≡ matches pattern.now text.now }
{
    run_matches(pattern, text)
}

/// The law that the test by a pattern is the relation.
pub fn matches_is_glob()
    ensures { MatchesIsGlob }
{}

fn run_matches(pattern: &[u8], text: &[u8]) -> bool
    ensures { IsTrue result ↔ Matches pattern.now text.now }
{
    let mut run = run_to_star(pattern, text);
    while let Run::Star(behind, rest) = run {
        run = run_from_star(behind, rest);
    }
    matches!(run, Run::Ends)
}

/// What the pieces up to the next `*` come to.
#[derive(Clone, Copy)]
pub(crate) enum Run<'a> {
    /// Both the pattern and the text ended.
    Ends,
    /// A `*`: what stands behind it, and what is left of the text.
    Star(&'a [u8], &'a [u8]),
    /// A piece didn't fit.
    Fails,
}

// The pieces from the front of the text on.
fn run_to_star<'a>(pattern: &'a [u8], text: &'a [u8]) -> Run<'a>
    ensures { IsRun pattern.now text.now result }
{
    let mut pieces = pattern;
    let mut rest = text;
    while let [piece, behind @ ..] = pieces {
        if *piece == b'*' {
            return Run::Star(behind, rest);
        }
        let [byte, more @ ..] = rest else {
            return Run::Fails;
        };
        let Some(left) = behind_piece(*piece, behind, *byte) else {
            return Run::Fails;
        };
        pieces = left;
        rest = more;
    }
    at_end(rest)
}

// What no piece more comes to.
fn at_end(rest: &[u8]) -> Run<'_>
    ensures { IsRun [] rest.now result }
{
    if rest.is_empty() {
        Run::Ends
    } else {
        Run::Fails
    }
}

// The pieces behind a `*`, from the first place of the text on at which they fit up to the next.
fn run_from_star<'a>(behind: &'a [u8], text: &'a [u8]) -> Run<'a>
    ensures settles { Settles (starred behind.now) text.now result }
    ensures shorter { left_of result ≤ length behind.now }
{
    let mut rest = text;
    loop {
        let run = run_to_star(behind, rest);
        let [_, more @ ..] = rest else {
            return run;
        };
        if !matches!(run, Run::Fails) {
            return run;
        }
        rest = more;
    }
}
