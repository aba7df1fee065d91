// What is wrong with bodies and the names in them.

ghost use Rattle.std.specs.Prelude.{◌≡◌, IfOk, OnOk, None, flat_map};
ghost use Rattle.rule_loader.specs.CommandNames.{host_named, is_tcl, kind_is_tcl, may_stand};
ghost use Rattle.rule_loader.specs.CommandNames.{name_fault, name_faults};
ghost use Rattle.rule_loader.specs.Faults.{after_faults};
ghost use Rattle.rule_loader.specs.Loading.{body_faults, flaw_faults, tree_of};
ghost use Rattle.tcl_trees.specs.TreeView.{node_view};
ghost use Rattle.tcl_words.specs.View.{word_view};

use crate::load_fault::LoadKind;
use crate::told::Told;
use event_order::{EventName, HostCommand, read_command};
use px_bytes::M;
use std::alloc::Global;
use tcl_commands::{Kind, kind_of};
use tcl_compile::examine_body;
use tcl_trees::{CommandName, Flaw, Node};
use tcl_words::Word;

// The host command of this name.
fn host_named(name: &[u8]) -> Option<HostCommand>
    ensures { result ≡ host_named name.now }
{
    read_command(name)
}

// Whether the host command may stand in a body of the event, or of a procedure.
fn may_stand(command: HostCommand, event: Option<EventName>) -> bool
    ensures { result ≡ may_stand command event }
{
    match event {
        Some(event) => command.is_allowed(event),
        None => true,
    }
}

// Whether a command of this kind is one of Tcl.
fn kind_is_tcl(kind: Kind) -> bool
    ensures { result ≡ kind_is_tcl kind }
{
    matches!(kind, Kind::Pure | Kind::Control)
}

// Whether the name, which isn't the host's, is that of a command of Tcl.
fn is_tcl(name: &[u8]) -> bool
    requires { host_named name.now ≡ None }
    ensures { result ≡ is_tcl name.now }
{
    kind_is_tcl(kind_of(name))
}

// What is wrong with a literal name in a body of the event, or of a procedure.
fn name_fault(name: &[u8], event: Option<EventName>) -> Option<LoadKind>
    ensures { result ≡ name_fault name.now event }
{
    if let Some(command) = host_named(name) {
        if may_stand(command, event) {
            return None;
        }
        return Some(LoadKind::NotHere);
    }
    if is_tcl(name) {
        return None;
    }
    Some(LoadKind::NoCommand)
}

impl Told {
    // A literal name in a body of the event, or of a procedure.
    fn name(&mut self, named: &CommandName, event: Option<EventName>)
        ensures { self.new ≡ after_faults (name_faults event named.now) self.old }
    {
        if let Some(kind) = name_fault(named.name.as_bytes(), event) {
            self.note(kind, named.place);
        }
    }

    // The literal names in a body of the event, or of a procedure.
    fn names(&mut self, names: &[CommandName], event: Option<EventName>)
        ensures { self.new ≡ after_faults (flat_map (name_faults event) names.now) self.old }
    {
        for named in names {
            self.name(named, event);
        }
    }

    // What is wrong with the body itself.
    fn flaw(&mut self, flaw: Option<Flaw>)
        ensures { self.new ≡ after_faults (flaw_faults flaw) self.old }
    {
        if let Some(flaw) = flaw {
            self.note(LoadKind::Parse(flaw), flaw.place());
        }
    }

    /// The tree of a body of the event, or of a procedure.
    pub(crate) fn body(&mut self, alloc: Global, word: &Word, event: Option<EventName>) -> M<Node>
        ensures tree { IfOk result (λ node. node_view node ≡ tree_of (word_view word.now)) }
        ensures told { OnOk result (self.new
            ≡ after_faults (body_faults event (word_view word.now)) self.old) }
    {
        let (node, findings) = examine_body(alloc, word)?;
        self.flaw(findings.flaw);
        self.names(findings.names.as_slice(), event);
        Ok(node)
    }
}
