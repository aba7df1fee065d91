// The loader of rules.

ghost use Rattle.std.specs.Prelude.{◌≡◌, [], ◌∷◌, ◌++◌, IfOk, OnOk, Some, map};
ghost use Rattle.event_order.specs.declared.event.EventName.{EventName};
ghost use Rattle.rule_loader.specs.Faults.{after_faults};
ghost use Rattle.rule_loader.specs.Handlers.{handled_at, handler_view, handlers_at};
ghost use Rattle.rule_loader.specs.FormView.{definition_view, when_view};
ghost use Rattle.rule_loader.specs.Loading.{command_faults, definition_faults, handlings_in};
ghost use Rattle.rule_loader.specs.Loading.{procedure_of, procedures_in, rule_of, script_of};
ghost use Rattle.rule_loader.specs.Loading.{text_faults, twice_faults, when_faults, when_handlings};
ghost use Rattle.rule_loader.specs.Names.{AreNamesOf};
ghost use Rattle.rule_loader.specs.Outcome.{Gives, Holds};
ghost use Rattle.tcl_trees.specs.Procedures.{procs_view};
ghost use Rattle.tcl_words.specs.View.{command_view, script_view};

use crate::bodies::Bodies;
use crate::forms::{Definition, When, proc_form, when_form};
use crate::handler::EventHandler;
use crate::load_fault::{LoadFault, LoadKind};
use crate::name_set::NameSet;
use crate::rule::Rule;
use crate::told::Told;
use px_bytes::{M, Text};
use std::alloc::Global;
use tcl_trees::{Flaw, Proc, Procs};
use tcl_words::{Fault, LIMIT, Progress, Script, ScriptCommand};

// What was loaded so far.
#[derive(Drop)]
struct Loader {
    told: Told,
    procs: Procs,
    // The name of each procedure.
    names: NameSet,
    bodies: Bodies,
}

// The script that the text is, as far as it can be read, and its fault.
#[tactic(auto, unfolding(crate::specs::Loading::script_of, tcl_trees::specs::Compiled::script_within))]
fn read_script(alloc: Global, text: &[u8]) -> M<(Script, Option<Fault>)>
    ensures { IfOk result (λ r. script_of text.now ≡ (script_view r.0, r.1)) }
{
    let mut progress = Progress { at: 0, fault: None };
    let script = progress.script(alloc, text, LIMIT, false)?;
    Ok((script, progress.fault))
}

impl Told {
    // What is wrong with the text as a script.
    fn text(&mut self, fault: Option<Fault>)
        ensures { self.new ≡ after_faults (text_faults fault) self.old }
    {
        if let Some(fault) = fault {
            self.note(LoadKind::Parse(Flaw::Parse(fault)), fault.place());
        }
    }
}

impl Told {
    // A procedure of a name that one of those before may have.
    fn twice(&mut self, is_known: bool, place: usize)
        ensures { self.new ≡ after_faults (twice_faults is_known place) self.old }
    {
        if is_known {
            self.note(LoadKind::TwiceProc, place);
        }
    }
}

impl Loader {
    // Loads a handler.
    fn handler(&mut self, alloc: Global, when: When<'_>) -> M<()>
        ensures told { OnOk result (self.new.told
            ≡ after_faults (when_faults (when_view when.entry)) self.old.told) }
        ensures procs { self.new.procs ≡ self.old.procs }
        ensures names { self.new.names ≡ self.old.names }
        ensures bodies { OnOk result ((event : EventName)
            → map handler_view (handlers_at event self.new.bodies)
            ≡ map handler_view (handlers_at event self.old.bodies)
            ++ handled_at event (when_handlings (Some (when_view when.entry)))) }
    {
        let event = self.told.event(when.event);
        let priority = self.told.priority(when.priority);
        let body = self.told.body(alloc, when.body, event)?;
        let (Some(event), Some(priority)) = (event, priority) else {
            drop(body);
            return Ok(());
        };
        self.bodies.push(event, EventHandler { priority, body })
    }

    // Loads a procedure.
    fn procedure(&mut self, alloc: Global, definition: Definition<'_>) -> M<()>
        requires { AreNamesOf (procs_view self.old.procs) self.old.names }
        ensures told { OnOk result (self.new.told ≡ after_faults
            (definition_faults (procs_view self.old.procs) (definition_view definition.entry))
            self.old.told) }
        ensures procs { OnOk result (procs_view self.new.procs
            ≡ procs_view self.old.procs ++ procedure_of (definition_view definition.entry) ∷ []) }
        ensures names { OnOk result (AreNamesOf (procs_view self.new.procs) self.new.names) }
        ensures bodies { self.new.bodies ≡ self.old.bodies }
    {
        let name = Vec::from_slice(alloc, definition.name.as_bytes())?;
        let is_new = self.names.insert(name)?;
        self.told.twice(!is_new, definition.place);
        let body = self.told.body(alloc, definition.body, None)?;
        self.procs.push(Proc {
            name: definition.name,
            parameters: definition.parameters,
            body,
        })
    }

    // Loads a command.
    fn command(&mut self, alloc: Global, command: &ScriptCommand) -> M<()>
        requires { AreNamesOf (procs_view self.old.procs) self.old.names }
        ensures told { OnOk result (self.new.told ≡ after_faults
            (command_faults (procs_view self.old.procs) (command_view command.now))
            self.old.told) }
        ensures procs { OnOk result (procs_view self.new.procs
            ≡ procs_view self.old.procs ++ procedures_in (command_view command.now)) }
        ensures names { OnOk result (AreNamesOf (procs_view self.new.procs) self.new.names) }
        ensures bodies { OnOk result ((event : EventName)
            → map handler_view (handlers_at event self.new.bodies)
            ≡ map handler_view (handlers_at event self.old.bodies)
            ++ handled_at event (handlings_in (command_view command.now))) }
    {
        let words = command.words.as_slice();
        if let Some(when) = when_form(words) {
            return self.handler(alloc, when);
        }
        if let Some(definition) = proc_form(alloc, words)? {
            return self.procedure(alloc, definition);
        }
        self.told.note(LoadKind::NotWhen, command.span.start);
        Ok(())
    }
}

// What commands load, where so much is told before.
fn loaded(alloc: Global, commands: &[ScriptCommand], told: Told) -> M<Loader>
    ensures { IfOk result (Holds told (map command_view commands.now)) }
{
    let mut loader = Loader {
        told,
        procs: Procs::new(alloc),
        names: NameSet::new(alloc),
        bodies: Bodies::new(alloc)?,
    };
    for command in commands {
        loader.command(alloc, command)?;
    }
    Ok(loader)
}

/// The rule that a text is, or what is wrong with it at the least place, and of several faults at one
/// place the one with the smaller number.
pub fn load_rule(alloc: Global, name: &[u8], text: &[u8]) -> Result<Rule, LoadFault>
    ensures { Gives result (rule_of name.now text.now) }
{
    let (script, fault) = read_script(alloc, text)?;
    let mut told = Told { fault: None };
    told.text(fault);
    let loader = loaded(alloc, script.commands.as_slice(), told)?;
    match loader.told.fault {
        Some(fault) => Err(LoadFault::Fault(fault)),
        None => Ok(Rule {
            name: Text::new(alloc, name)?,
            procs: loader.procs,
            bodies: loader.bodies,
        }),
    }
}
