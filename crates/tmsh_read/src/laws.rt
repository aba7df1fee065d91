// Laws of the grammar.

ghost use Rattle.std.specs.Prelude.{ℕ, List};
ghost use Rattle.tmsh_read.specs.Laws.{FirstFaulty, NoFault, OneMeaning};
ghost use Rattle.tmsh_read.specs.Reading.{IsFault};
ghost use Rattle.tmsh_read.specs.declared.fault.ReadFault.TheVariants.{Form};

/// A text means one table, and then has no faulty token.
pub fn one_meaning()
    ensures one { OneMeaning }
    ensures no_fault { NoFault }
{}

/// The token at the place of a faulty form is the first with which no text of the grammar goes on.
pub fn first_faulty()
    ensures { (text : List ℕ) (place : ℕ) → IsFault text (Form place) → FirstFaulty text place }
{}
