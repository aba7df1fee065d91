// The faults that several crates raise, with their texts.

ghost use Rattle.std.specs.Prelude.{◌≡◌, ◌++◌, Err, IfOk};
ghost use Rattle.px_bytes.specs.FaultText.{no_variable, no_command, wrong_arity, not_whole};
ghost use Rattle.px_bytes.specs.FaultText.{out_of_range, syntax_error, too_long, budget_spent};
ghost use Rattle.px_bytes.specs.FaultText.{static_set, outside_loop};
ghost use Rattle.px_bytes.specs.Gives.{Gives};

use crate::{FaultKind, M, Raise, TclFault, Text};
use std::alloc::Global;

impl TclFault {
    /// A variable that isn't there was read.
    pub fn no_variable(alloc: Global, name: &[u8]) -> M<TclFault>
        ensures { IfOk result (λ f. f ≡ no_variable name.now) }
    {
        let text = around(alloc, b"can't read \"", name, b"\": no such variable")?;
        Ok(TclFault {
            kind: FaultKind::NoVariable,
            text,
        })
    }

    /// No command of this name may be called.
    pub fn no_command(alloc: Global, name: &[u8]) -> M<TclFault>
        ensures { IfOk result (λ f. f ≡ no_command name.now) }
    {
        let text = around(alloc, b"invalid command name \"", name, b"\"")?;
        Ok(TclFault {
            kind: FaultKind::NoCommand,
            text,
        })
    }

    /// A command was given a wrong number of words.
    pub fn wrong_arity(alloc: Global, name: &[u8]) -> M<TclFault>
        ensures { IfOk result (λ f. f ≡ wrong_arity name.now) }
    {
        let text = around(alloc, b"wrong # args: \"", name, b"\"")?;
        Ok(TclFault {
            kind: FaultKind::Arity,
            text,
        })
    }

    /// A word isn't a whole number.
    pub fn not_whole(alloc: Global, word: &[u8]) -> M<TclFault>
        ensures { IfOk result (λ f. f ≡ not_whole word.now) }
    {
        let text = around(alloc, b"expected integer but got \"", word, b"\"")?;
        Ok(TclFault {
            kind: FaultKind::NotWhole,
            text,
        })
    }

    /// A number is out of range.
    pub fn out_of_range(alloc: Global) -> M<TclFault>
        ensures { IfOk result (λ f. f ≡ out_of_range) }
    {
        Ok(TclFault {
            kind: FaultKind::OutOfRange,
            text: Text::new(alloc, b"integer out of range")?,
        })
    }

    /// The words of the command of this name have none of its forms.
    pub fn syntax_error(alloc: Global, name: &[u8]) -> M<TclFault>
        ensures { IfOk result (λ f. f ≡ syntax_error name.now) }
    {
        let mut text = Text::new(alloc, b"syntax error in ")?;
        text.push(name)?;
        Ok(TclFault {
            kind: FaultKind::Syntax,
            text,
        })
    }

    /// A text, or all variables together, would be too long.
    pub fn too_long(alloc: Global) -> M<TclFault>
        ensures { IfOk result (λ f. f ≡ too_long) }
    {
        Ok(TclFault {
            kind: FaultKind::TooLong,
            text: Text::new(alloc, b"text too long")?,
        })
    }

    /// A body has used up its budget.
    pub fn budget_spent(alloc: Global) -> M<TclFault>
        ensures { IfOk result (λ f. f ≡ budget_spent) }
    {
        Ok(TclFault {
            kind: FaultKind::Budget,
            text: Text::new(alloc, b"step budget spent")?,
        })
    }

    /// A static variable was set where it can only be read.
    pub fn static_set(alloc: Global) -> M<TclFault>
        ensures { IfOk result (λ f. f ≡ static_set) }
    {
        Ok(TclFault {
            kind: FaultKind::Context,
            text: Text::new(alloc, b"static variable set outside RULE_INIT")?,
        })
    }

    /// `break` or `continue`, by its name, stands in no loop.
    pub fn outside_loop(alloc: Global, name: &[u8]) -> M<TclFault>
        ensures { IfOk result (λ f. f ≡ outside_loop name.now) }
    {
        let text = around(alloc, b"invoked \"", name, b"\" outside of a loop")?;
        Ok(TclFault {
            kind: FaultKind::Context,
            text,
        })
    }
}

impl Raise {
    /// The answer that a text, or all variables together, would be too long.
    pub fn too_long<T>(alloc: Global) -> Result<T, Raise>
        ensures { Gives result (Err too_long) }
    {
        Err(Raise::Fault(TclFault::too_long(alloc)?))
    }

    /// The answer that the command of this name was given a wrong number of words.
    pub fn arity<T>(alloc: Global, name: &[u8]) -> Result<T, Raise>
        ensures { Gives result (Err (wrong_arity name.now)) }
    {
        Err(Raise::Fault(TclFault::wrong_arity(alloc, name)?))
    }

    /// The answer that the words of the command of this name have none of its forms.
    pub fn syntax<T>(alloc: Global, name: &[u8]) -> Result<T, Raise>
        ensures { Gives result (Err (syntax_error name.now)) }
    {
        Err(Raise::Fault(TclFault::syntax_error(alloc, name)?))
    }
}

// A name with text before and after it.
fn around(alloc: Global, before: &[u8], name: &[u8], after: &[u8]) -> M<Text>
    ensures { IfOk result (λ t. t ≡ before.now ++ name.now ++ after.now) }
{
    let mut text = Text::new(alloc, before)?;
    text.push(name)?;
    text.push(after)?;
    Ok(text)
}
