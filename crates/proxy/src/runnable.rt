// What can be run today of the configurations that load.

ghost use Rattle.std.specs.Prelude.{◌≡◌, IfOk, Some, option_map, slice_get, true};
ghost use Rattle.std.specs.List.{list_all};
ghost use Rattle.event_order.specs.Event.{every_event};
ghost use Rattle.proxy.specs.HostCommands.{is_built};
ghost use Rattle.tcl_trees.specs.Procedures.{procs_view};
ghost use Rattle.tcl_trees.specs.TreeView.{node_view};
ghost use Rattle.proxy.specs.Runnable.{are_built, can_run, has_built_bodies, has_few, if_built};
ghost use Rattle.proxy.specs.Runnable.{is_plain, is_rule_built, run_of, sets_no_cookie};
ghost use Rattle.proxy.specs.Runnable.{speaks_http};

use crate::interim_rules::is_built;
use config::LoadedConfig;
use event_order::EventName;
use px_bytes::M;
use rule_loader::{EventHandler, Rule};
use run_config::{Config, Persist, Virtual};
use std::alloc::Global;
use tcl_trees::Procs;

/// The most procedures of a rule that can be run today.
const MOST_PROCEDURES: usize = 65_536;

fn has_built_bodies(http: bool, rule: &Rule, event: EventName) -> bool
    ensures { result ≡ has_built_bodies http rule.now event }
{
    are_bodies_built(http, rule.handlers(event).as_slice())
}

fn are_bodies_built(http: bool, handlers: &[EventHandler]) -> bool
    ensures { result ≡ list_all (λ h. is_built http (node_view h.body)) handlers.now }
{
    handlers.iter().all(|handler| is_built(http, &handler.body))
}

fn has_all_built_bodies(http: bool, rule: &Rule) -> bool
    ensures { result ≡ list_all (has_built_bodies http rule.now) every_event }
{
    EventName::ALL
        .iter()
        .all(|event| has_built_bodies(http, rule, *event))
}

fn has_few(procs: &Procs) -> bool
    ensures { result ≡ has_few (procs_view procs.now) }
{
    procs.at(MOST_PROCEDURES).is_none()
}

// Whether the procedure of this number, if there is one, names no command that can't be run.
fn built_at(http: bool, procs: &Procs, number: usize) -> Option<bool>
    ensures { result
        ≡ option_map (λ p. is_built http p.body) (slice_get (procs_view procs.now) number) }
{
    match procs.at(number) {
        Some(procedure) => Some(is_built(http, &procedure.body)),
        None => None,
    }
}

fn are_built(http: bool, procs: &Procs) -> bool
    requires { has_few (procs_view procs.now) ≡ true }
    ensures { result ≡ are_built http (procs_view procs.now) }
{
    for number in 0..MOST_PROCEDURES {
        let Some(built) = built_at(http, procs, number) else {
            return true;
        };
        if !built {
            return false;
        }
    }
    true
}

fn is_rule_built(http: bool, rule: &Rule) -> bool
    ensures { result ≡ is_rule_built http rule.now }
{
    has_all_built_bodies(http, rule) && has_few(&rule.procs) && are_built(http, &rule.procs)
}

fn sets_no_cookie(persist: Persist) -> bool
    ensures { result ≡ sets_no_cookie persist }
{
    match persist {
        Persist::None | Persist::SourceAddr => true,
        Persist::Cookie => false,
    }
}

fn is_plain(server: &Virtual) -> bool
    ensures { result ≡ is_plain server.now }
{
    sets_no_cookie(server.persist)
}

fn speaks_http(servers: &[Virtual]) -> bool
    ensures { result ≡ speaks_http servers.now }
{
    servers.iter().any(|server| server.http)
}

fn are_plain(servers: &[Virtual]) -> bool
    ensures { result ≡ list_all is_plain servers.now }
{
    servers.iter().all(is_plain)
}

fn are_rules_built(http: bool, rules: &[Rule]) -> bool
    ensures { result ≡ list_all (is_rule_built http) rules.now }
{
    rules.iter().all(|rule| is_rule_built(http, rule))
}

fn can_run(config: &Config) -> bool
    ensures { result ≡ can_run config.now }
{
    let servers = config.virtuals.as_slice();
    are_plain(servers) && are_rules_built(speaks_http(servers), config.rules.as_slice())
}

/// What the core runs for a configuration that loaded, if that can be run.
#[tactic(auto, unfolding(crate::specs::Runnable::run_of))]
pub fn core_config(alloc: Global, loaded: LoadedConfig) -> M<Option<Config>>
    ensures { IfOk result (λ K. K ≡ run_of loaded) }
{
    match loaded.filled(alloc)? {
        Some(config) => Ok(if_built(config)),
        None => Ok(None),
    }
}

fn if_built(config: Config) -> Option<Config>
    ensures { result ≡ if_built (Some config) }
{
    if can_run(&config) { Some(config) } else { None }
}
