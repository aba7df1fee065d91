// `if`.

ghost use Rattle.std.specs.Prelude.{◌≡◌, ◌≤◌, IfOk, map};
ghost use Rattle.tcl_words.specs.View.{word_view};
ghost use Rattle.tcl_trees.specs.Compiled.{level};
ghost use Rattle.tcl_trees.specs.Controls.{arm_at, branches_at, if_at};
ghost use Rattle.tcl_compile.specs.IfView.{arms_view, branches_view};
ghost use Rattle.tcl_trees.specs.Making.{gathered};
ghost use Rattle.tcl_trees.specs.TreeView.{node_view, values_view};

use crate::compiler::Compiler;
use crate::if_form::{Arm, Branches, if_form};
use crate::notes::nothing;
use crate::zip::zip;
use px_bytes::M;
use std::alloc::Global;
use tcl_trees::Node;
use tcl_words::Word;

impl Compiler {
    /// Conditions with their bodies.
    #[cycle(compiled)]
    fn arms(
        &mut self,
        alloc: Global,
        base: usize,
        arms: &[Arm<'_>],
        levels: usize,
    ) -> M<Vec<(Node, Node)>>
        requires bounded { levels ≤ 101 }
        ensures { IfOk result (λ v. gathered (arm_at (level levels) base) (arms_view arms.now)
            self.old.findings ≡ (values_view v.items, self.new.findings)) }
    {
        let mut values = Vec::new(alloc);
        for arm in arms {
            let condition = self.condition(alloc, base, arm.condition, levels)?;
            let value = zip(condition, self.body(alloc, base, arm.body, levels))?;
            values.push(value)?;
        }
        Ok(values)
    }

    /// An `if` whose number of words is right.
    #[cycle(compiled)]
    fn branches(
        &mut self,
        alloc: Global,
        base: usize,
        branches: &Branches<'_>,
        levels: usize,
    ) -> M<Node>
        requires bounded { levels ≤ 101 }
        ensures { IfOk result (λ v. branches_at (level levels) base (branches_view branches.now)
            self.old.findings ≡ (node_view v, self.new.findings)) }
    {
        let arms = self.arms(alloc, base, branches.arms.as_slice(), levels)?;
        let last = match branches.last {
            Some(body) => self.body(alloc, base, body, levels)?,
            None => nothing(alloc),
        };
        Ok(Node::If(arms, Box::new(alloc, last)?))
    }

    /// An `if`.
    #[cycle(compiled)]
    pub(crate) fn conditional(
        &mut self,
        alloc: Global,
        base: usize,
        at: usize,
        words: &[Word],
        levels: usize,
    ) -> M<Node>
        requires bounded { levels ≤ 101 }
        ensures { IfOk result (λ v. if_at (level levels) base at (map word_view words.now)
            self.old.findings ≡ (node_view v, self.new.findings)) }
    {
        match if_form(alloc, words)? {
            Some(branches) => self.branches(alloc, base, &branches, levels),
            None => Ok(self.wrong_number(alloc, base, at)),
        }
    }
}
