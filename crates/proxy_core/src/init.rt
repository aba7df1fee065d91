// What the rules' RULE_INIT leave.

ghost use Rattle.std.specs.Prelude.{◌≡◌, ◌++◌, IfOk, OnOk, map};
ghost use Rattle.core_events.specs.declared.note.Note.TheVariants as noted;
ghost use Rattle.conn.specs.Setups.{handler_of};
ghost use Rattle.irule_net.specs.Effects.{effect_of};
ghost use Rattle.record_model.specs.Init.{all_ran, fault_lines, init, init_bodies, init_host};
ghost use Rattle.record_model.specs.Init.{line_of};
ghost use Rattle.record_model.specs.Init.{lines_in, ran};
ghost use Rattle.proxy_core.specs.InitPlaces.{place_ran, places_ran, plain_lines};

use crate::init_host::InitHost;
use crate::server_bodies::places_of;
use conn::{Handler, Place, body_in};
use conn_trace::uncaught_line;
use core_events::{Note, Notes};
use event_order::EventName;
use irule_net::Made;
use plain_eval::{Plain, Replies, eval_plain};
use px_bytes::{M, TclFault, Text, Texts};
use record_model::Left;
use run_config::Config;
use std::alloc::Global;

/// The RULE_INIT bodies of all rules run, one after another.
#[tactic(auto, unfolding(record_model::specs::Init::init))]
pub fn init(alloc: Global, config: &Config) -> M<Left>
    ensures { IfOk result (λ left. left ≡ init config.now) }
{
    let mut left = Left::new(alloc);
    for number in 0..config.rules.len() {
        run_rule(alloc, config, number, &mut left)?;
    }
    Ok(left)
}

/// The notes of lines that are logged before any connection.
pub fn start_notes(alloc: Global, lines: &[Text]) -> M<Notes>
    ensures { IfOk result (λ notes. notes.items ≡ map (λ line. noted.Log 0 line) lines.now) }
{
    let mut notes = Notes::new(alloc);
    for line in lines {
        let text = line.copy()?;
        notes.push(Note::Log { conn: 0, text })?;
    }
    Ok(notes)
}

// Those of a rule.
fn run_rule(alloc: Global, config: &Config, number: usize, left: &mut Left) -> M<()>
    ensures { OnOk result (left.new ≡ all_ran config.now (init_bodies config.now number) left.old) }
{
    let places = places_of(
        alloc,
        config.rules.as_slice(),
        &[number],
        EventName::RuleInit,
    )?;
    run_places(alloc, config, places.as_slice(), left)?;
    Ok(())
}

fn run_places(alloc: Global, config: &Config, places: &[Place], left: &mut Left) -> M<()>
    ensures { OnOk result (left.new ≡ places_ran config.now places.now left.old) }
{
    for place in places {
        run_place(alloc, config, *place, left)?;
    }
    Ok(())
}

fn run_place(alloc: Global, config: &Config, place: Place, left: &mut Left) -> M<()>
    ensures { OnOk result (left.new ≡ place_ran config.now left.old place) }
{
    match body_in(config.rules.as_slice(), EventName::RuleInit, place) {
        Some(handler) => run_body(alloc, config, handler, left),
        None => Ok(()),
    }
}

fn run_body(alloc: Global, config: &Config, handler: Handler<'_>, left: &mut Left) -> M<()>
    ensures { OnOk result (left.new ≡ ran config.now (handler_of handler.entry) left.old) }
{
    let mut host = InitHost::new(alloc);
    run_on(alloc, config, handler, left, &mut host)
}

// The body runs on a host that has done nothing yet.
fn run_on(
    alloc: Global,
    config: &Config,
    handler: Handler<'_>,
    left: &mut Left,
    host: &mut InitHost,
) -> M<()>
    requires { host.old ≡ init_host }
    ensures { OnOk result (left.new ≡ ran config.now (handler_of handler.entry) left.old) }
{
    let replies = Replies::new(alloc);
    left.vars.enter_proc()?;
    let plain = eval_plain(
        alloc,
        handler.body,
        handler.procs,
        None,
        &mut left.vars,
        host,
        &config.groups,
        &replies,
        config.budget,
    )?;
    left.vars.leave_proc();
    add_lines(&mut left.lines, host.made().as_slice())?;
    add_end(alloc, handler.name, plain, &mut left.lines)?;
    Ok(())
}

fn add_lines(lines: &mut Texts, made: &[Made]) -> M<()>
    ensures { OnOk result (lines.new ≡ lines.old ++ lines_in (map effect_of made.now)) }
{
    for effect in made {
        add_line(lines, effect)?;
    }
    Ok(())
}

fn add_line(lines: &mut Texts, effect: &Made) -> M<()>
    ensures { OnOk result (lines.new ≡ lines.old ++ line_of (effect_of effect.now)) }
{
    match effect {
        Made::Logged(text) => lines.push(text.copy()?),
        Made::Sent(..) => Ok(()),
    }
}

fn add_end(alloc: Global, rule: &Text, plain: Plain, lines: &mut Texts) -> M<()>
    ensures { OnOk result (lines.new ≡ lines.old ++ plain_lines rule.now plain) }
{
    match plain {
        Plain::Done { code, .. } => add_fault(alloc, rule, code.uncaught(alloc)?, lines),
        Plain::Waits { .. } => Ok(()),
    }
}

fn add_fault(alloc: Global, rule: &Text, fault: Option<TclFault>, lines: &mut Texts) -> M<()>
    ensures { OnOk result (lines.new ≡ lines.old ++ fault_lines rule.now fault) }
{
    let Some(fault) = fault else {
        return Ok(());
    };
    lines.push(uncaught_line(alloc, rule, EventName::RuleInit, &fault.text)?)
}
