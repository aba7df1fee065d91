// Scripts as trees.

use px_bytes::Text;
use tcl_expr::{Joint, Op1};

/// What a command does that evaluates all its words first, its name among them, and is checked when
/// it runs.
#[derive(Clone, Copy, PartialEq, Eq)]
pub enum Verb {
    /// The command that the first word names, a literal that is no command below or of control.
    Named,
    /// The command that the first word names when it runs: it has a substitution or a backslash.
    Computed,
    Set,
    Unset,
    Incr,
    Append,
    Lappend,
    Array,
    Info,
    Return,
    Break,
    Continue,
    Error,
    Call,
    /// `expr` whose words are joined by blanks and read when it runs.
    ExprOfWords,
}

/// A piece of a word, a word, a command, a body or an expression.
///
/// A node's children are numbered from 0, as they stand in its fields: an index's or a word's parts,
/// a script's commands, a command's words, conditions and values in turn with the last value behind
/// them, a loop's start, test, next and body, the words of a `foreach` and its body, the words of a
/// `switch` and its bodies, the body of a `catch` and its name, an expression's operands.
#[derive(Drop)]
pub enum Node {
    /// These bytes.
    Plain(Text),
    /// The value of the variable of this name.
    Variable(Text),
    /// The value of an array's element: its name, and the parts of its index.
    Element(Text, Vec<Node>),
    /// The values of the parts, joined: a command's word, or a quoted operand.
    Word(Vec<Node>),
    /// The commands in order: a body, or a bracket.
    Script(Vec<Node>),
    /// A command that evaluates all its words first.
    Command(Verb, Vec<Node>),
    /// `expr` of one expression.
    Expr(Box<Node>),
    /// `if`: conditions with their bodies, and the last body, which is empty where none stands.
    If(Vec<(Node, Node)>, Box<Node>),
    /// `for`, and `while`, whose start and next are empty.
    Loop {
        start: Box<Node>,
        test: Box<Node>,
        next: Box<Node>,
        body: Box<Node>,
    },
    /// Names and lists in turn, and the body.
    Foreach {
        words: Vec<Node>,
        body: Box<Node>,
    },
    /// `switch`: so many words of options and text, the patterns behind them, and a body for each.
    Switch {
        front: usize,
        words: Vec<Node>,
        bodies: Vec<Node>,
    },
    /// `catch` of a body.
    Catch(Box<Node>),
    /// `catch` of a body, and the name of the variable that gets its result.
    CatchIn {
        body: Box<Node>,
        name: Box<Node>,
    },
    /// `-` in place of a body of a `switch`: the next one is meant.
    NextBody,
    /// Operators before an operand, the outermost first.
    Prefixed(Vec<Op1>, Box<Node>),
    /// Operands of one row of operators, which group from the left.
    Row(Box<Node>, Vec<(Joint, Node)>),
    /// `?:`: conditions with their values, and the last value.
    Choice(Vec<(Node, Node)>, Box<Node>),
}
