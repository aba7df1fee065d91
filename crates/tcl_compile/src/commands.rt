// Commands and scripts. The functions call one another, as deep as constructs may stand inside one
// another.

ghost use Rattle.std.specs.Prelude.{◌≡◌, ◌≤◌, IfOk, map};
ghost use Rattle.tcl_words.specs.View.{command_view};
ghost use Rattle.tcl_trees.specs.Compiled.{level};
ghost use Rattle.tcl_trees.specs.Compiling.{command_at, script_at};
ghost use Rattle.tcl_trees.specs.TreeView.{node_view};

use crate::compiler::Compiler;
use px_bytes::M;
use std::alloc::Global;
use tcl_trees::{Node, Shape, shape_of};
use tcl_words::ScriptCommand;

impl Compiler {
    /// A command.
    #[cycle(compiled)]
    fn command(
        &mut self,
        alloc: Global,
        base: usize,
        command: &ScriptCommand,
        levels: usize,
    ) -> M<Node>
        requires bounded { levels ≤ 101 }
        ensures { IfOk result (λ v. command_at (level levels) base (command_view command.now)
            self.old.findings ≡ (node_view v, self.new.findings)) }
    {
        let words = command.words.as_slice();
        let at = command.span.start;
        match shape_of(words) {
            Shape::Words(verb) => self.evaluated(alloc, base, at, verb, words, levels),
            Shape::Expr => self.expr(alloc, base, at, words, levels),
            Shape::If => self.conditional(alloc, base, at, words, levels),
            Shape::While => self.while_loop(alloc, base, at, words, levels),
            Shape::For => self.for_loop(alloc, base, at, words, levels),
            Shape::Foreach => self.foreach(alloc, base, at, words, levels),
            Shape::Switch => self.switch(alloc, base, at, words, levels),
            Shape::Catch => self.catch(alloc, base, at, words, levels),
        }
    }

    /// The commands of a script.
    #[cycle(compiled)]
    pub(crate) fn script(
        &mut self,
        alloc: Global,
        base: usize,
        commands: &[ScriptCommand],
        levels: usize,
    ) -> M<Node>
        requires bounded { levels ≤ 101 }
        ensures { IfOk result (λ v. script_at (level levels) base (map command_view commands.now)
            self.old.findings ≡ (node_view v, self.new.findings)) }
    {
        let mut nodes = Vec::new(alloc);
        for command in commands {
            let node = self.command(alloc, base, command, levels)?;
            nodes.push(node)?;
        }
        Ok(Node::Script(nodes))
    }
}
