// What is wrong with a rule, in words.

ghost use Rattle.std.specs.Prelude.{◌≡◌};
ghost use Rattle.rule_loader.specs.Words.{fault_words, flaw_words, load_words, misread_words};

use crate::load_fault::LoadKind;
use tcl_expr::Misread;
use tcl_trees::Flaw;
use tcl_words::Fault;

fn fault_words(fault: Fault) -> &'static str
    ensures { result.now ≡ fault_words fault }
{
    match fault {
        Fault::MissingBrace(_) => "this brace isn't closed",
        Fault::MissingQuote(_) => "this quote isn't closed",
        Fault::MissingBracket(_) => "this bracket isn't closed",
        Fault::ExtraAfter(_) =>
            "a blank or an end of a command must follow a closing brace or quote",
        Fault::BadEscape(_) => "this escape is of a number above 255, which is no byte",
        Fault::TooDeep(_) => "more than 100 braces, brackets or bodies stand inside one another",
    }
}

fn misread_words(misread: Misread) -> &'static str
    ensures { result.now ≡ misread_words misread }
{
    match misread {
        Misread::Syntax(_) => "this is no expression",
        Misread::TooDeep(_) => "more than 100 parts of an expression stand inside one another",
    }
}

fn flaw_words(flaw: Flaw) -> &'static str
    ensures { result.now ≡ flaw_words flaw }
{
    match flaw {
        Flaw::Parse(fault) => fault_words(fault),
        Flaw::Expr(misread) => misread_words(misread),
        Flaw::Arity(_) => "this command has too few or too many words",
        Flaw::BadBody(_) => "a body, a condition or a list of cases in braces is due here",
    }
}

impl LoadKind {
    /// What is wrong, in English.
    pub fn words(self) -> &'static str
        ensures { result.now ≡ load_words self }
    {
        match self {
            LoadKind::Parse(flaw) => flaw_words(flaw),
            LoadKind::NotWhen => "a rule has only `when EVENT {..}` and `proc NAME {..} {..}` here",
            LoadKind::NoEvent => "there is no such event",
            LoadKind::NoCommand => "there is no command of this name",
            LoadKind::BadPriority => "a priority is a whole number from 1 to 1000",
            LoadKind::TwiceProc => "there is a procedure of this name already",
            LoadKind::NotHere =>
                "this event doesn't have the command, or the virtual server the event",
        }
    }
}
