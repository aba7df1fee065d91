// The evaluation of a tree on the replies that have come.

ghost use Rattle.std.specs.Prelude.{◌≡◌, IfOk, option_map};
ghost use Rattle.tcl_trees.specs.Procedures.{procs_view};
ghost use Rattle.tcl_trees.specs.TreeView.{node_view};
ghost use Rattle.rule_model.specs.Evaluator.{evaluate};
ghost use Rattle.rule_model.specs.Outcome.{uncaught_of};
ghost use Rattle.plain_eval.specs.Plain.{IsOutcome, IsTold, code_of, setting};

use crate::context::{Context, Room};
use crate::host::PlainHost;
use crate::run::{End, Run};
use crate::tree::eval_tree;
use px_bytes::{M, Memory, Reply, Seq, TclFault, Text, Texts};
use rule_model::Code;
use std::alloc::Global;
use std::mem;
use tcl_trees::{Node, Procs};
use tcl_vars::Vars;

/// How a body ends.
#[derive(Drop)]
pub enum PlainCode {
    Ends(Text),
    Raised(TclFault),
    Return(Text),
    Break,
    Continue,
}

impl PlainCode {
    /// The fault that a body that ends so leaves uncaught.
    pub fn uncaught(self, alloc: Global) -> M<Option<TclFault>>
        ensures { IfOk result (λ fault. fault ≡ uncaught_of (code_of self)) }
    {
        Ok(match self {
            PlainCode::Ends(_) => None,
            PlainCode::Raised(fault) => Some(fault),
            PlainCode::Return(_) => None,
            PlainCode::Break => Some(TclFault::outside_loop(alloc, b"break")?),
            PlainCode::Continue => Some(TclFault::outside_loop(alloc, b"continue")?),
        })
    }
}

/// What a body comes to on the replies that have come: its end, with how many of them it took, or
/// the shared call that has no reply yet.
#[derive(Drop)]
pub enum Plain {
    Done { code: PlainCode, used: usize },
    Waits { call: Texts },
}

/// The replies to a body's shared calls, in order.
pub type Replies = Seq<Reply>;

/// The most calls, and the most expressions that are read when they run, inside one another.
const INNER_LIMIT: usize = 100;

/// The most trees inside one another that the stack has room for.
const LEVELS: usize = 11_000;

/// What a tree comes to, from its beginning, on these replies. `statics` are the static variables
/// where they are only read; with `None` they are those of `vars`. After want of memory `vars` and
/// `host` are not to be used.
#[inline(never)]
pub fn eval_plain<H: PlainHost>(
    alloc: Global,
    tree: &Node,
    procs: &Procs,
    statics: Option<&Vars>,
    vars: &mut Vars,
    host: &mut H,
    env: &H::Env,
    answers: &Replies,
    budget: u32,
) -> M<Plain>
    ensures { let level = option_map (λ v. v.now.statics) statics.entry in
        let given = setting level (H.table env.now) (procs_view procs.now) in
        let tree = node_view tree.now in
        let outcome = evaluate given tree vars.old host.old answers.now budget in
        IfOk result (λ plain. IsOutcome outcome plain vars.new host.new answers.now) }
{
    let context = Context {
        alloc,
        statics,
        env,
        procs,
        room: Room {
            calls: INNER_LIMIT,
            expressions: INNER_LIMIT,
        },
    };
    let mut run = Run {
        vars: mem::replace(vars, Vars::new(alloc)),
        left: answers.as_slice(),
        budget,
        end: End::Memory,
    };
    let _ = eval_tree(&context, LEVELS, tree, true, &mut run, host);
    let used = answers.len().saturating_sub(run.left.len());
    *vars = run.vars;
    told(run.end, used)
}

// An end or a wait, told to the caller.
#[inline(never)]
fn told(end: End, used: usize) -> M<Plain>
    ensures { IsTold end used result }
{
    match end {
        End::Done(code) => Ok(Plain::Done {
            code: plain_code(code),
            used,
        }),
        End::Waits(call) => Ok(Plain::Waits { call }),
        End::Memory => Err(Memory),
    }
}

fn plain_code(code: Code) -> PlainCode
    ensures { code_of result ≡ code }
{
    match code {
        Code::Value(value) => PlainCode::Ends(value),
        Code::Raised(fault) => PlainCode::Raised(fault),
        Code::Return(value) => PlainCode::Return(value),
        Code::Break => PlainCode::Break,
        Code::Continue => PlainCode::Continue,
    }
}
