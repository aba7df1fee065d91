// What goes on above the node that runs.

use crate::values::Values;
use px_bytes::{Text, Texts};
use rule_model::Code;
use rule_nodes::Row;
use tcl_expr::Joint;
use tcl_trees::Node;

/// How many calls, and how many expressions that are read when they run, may still stand inside one
/// another.
#[derive(Clone, Copy, PartialEq, Eq)]
pub struct Room {
    pub calls: usize,
    pub expressions: usize,
}

/// A node that waits for the child that runs, by what it has come to so far. `wanted` says whether
/// the child's value is heard.
#[derive(Drop)]
pub enum Frame {
    /// A script, in its command of this number.
    Script {
        at: usize,
        wanted: bool,
    },
    /// A node that evaluates words first, in the part of a word: the words before it, and the
    /// pieces of this one so far.
    Words {
        word: usize,
        part: usize,
        values: Values,
        text: Text,
    },
    /// A quoted operand or an index, in its part of this number: the pieces so far.
    Pieces {
        part: usize,
        text: Text,
    },
    /// An operand behind operators, of which so many, the outermost, aren't applied yet.
    Operand {
        left: usize,
    },
    /// A row of operators, with the value of its operands up to this one.
    Left {
        at: usize,
    },
    /// A row of operators, in the operand of this number, and what joins it to the value of those
    /// before.
    Right {
        at: usize,
        joint: Joint,
        left: Text,
    },
    /// `if` or `?:`, in its condition of this number, the child of that number.
    Condition {
        at: usize,
        place: usize,
    },
    /// A node whose end is that of its child of this number.
    Body {
        place: usize,
        wanted: bool,
    },
    /// A loop in its start.
    Start,
    /// A loop in its test, with so many turns left.
    Test {
        left: u32,
    },
    /// A loop in its body, with so many turns left behind this one.
    Turn {
        left: u32,
    },
    /// A loop in what comes after a turn, with so many turns left.
    Next {
        left: u32,
    },
    /// A `foreach` in its body, the child of this number: the rows, the number of the next turn,
    /// and how many turns are left.
    Each {
        place: usize,
        rows: Vec<Row>,
        number: usize,
        left: usize,
    },
    /// A `catch`.
    Caught,
    /// A `catch` with the name of the variable that gets its result.
    CaughtIn {
        name: Text,
    },
    /// An `expr`.
    Whole,
    /// A call of the procedure of this number, and what may still nest inside it.
    Called {
        procedure: usize,
        room: Room,
        wanted: bool,
    },
    /// An expression that was read when it ran, and what may still nest inside it.
    Read {
        tree: Box<Node>,
        room: Room,
    },
}

/// What the node on top does next.
#[derive(Drop)]
pub enum Mode {
    /// It begins.
    Begin,
    /// Its child came to this.
    Back(Code),
    /// It waits for the answer to a shared call.
    Asked(Texts),
    /// The whole is over.
    Over,
}

/// Where a body stands: the frames, the root's first, what the node on top does, and the budget
/// that is left.
#[derive(Drop)]
pub struct Standing {
    pub frames: Vec<Frame>,
    pub mode: Mode,
    pub budget: u32,
}
