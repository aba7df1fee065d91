// Rules on virtual servers that don't have their events.

ghost use Rattle.std.specs.Prelude.{◌≡◌};
ghost use Rattle.config.specs.Misplaced.{first_misplaced, misplaced_rule, server_misplaced};
ghost use Rattle.config.specs.Texts.{place_of};

use crate::config::VirtualSettings;
use crate::index::Index;
use crate::rule_text::LoadedRule;
use px_bytes::Text;

/// The place of a rule, and that of an event's word in its text.
#[derive(Clone, Copy)]
pub(crate) struct Misplaced {
    pub rule: usize,
    pub place: usize,
}

// The first event of a rule that a virtual server doesn't have.
fn misplaced_rule(index: &Index, rules: &[LoadedRule], http: bool, name: &[u8]) -> Option<Misplaced>
    ensures { result ≡ misplaced_rule (place_of index.now) rules.now http name.now }
{
    let rule = index.find(name)?;
    let events = rules.get(rule)?.events;
    let place = if http {
        events.of_bytes?
    } else {
        events.of_http?
    };
    Some(Misplaced { rule, place })
}

// The first one of the rules of a virtual server.
fn server_misplaced(
    index: &Index,
    rules: &[LoadedRule],
    http: bool,
    names: &[Text],
) -> Option<Misplaced>
    ensures { result ≡ server_misplaced (place_of index.now) rules.now http names.now }
{
    for name in names {
        let found = misplaced_rule(index, rules, http, name.as_bytes());
        if found.is_some() {
            return found;
        }
    }
    None
}

/// The first one of virtual servers.
pub(crate) fn first_misplaced(
    index: &Index,
    rules: &[LoadedRule],
    servers: &[VirtualSettings],
) -> Option<Misplaced>
    ensures { result ≡ first_misplaced (place_of index.now) rules.now servers.now }
{
    for server in servers {
        let found = server_misplaced(index, rules, server.http, server.rules.as_slice());
        if found.is_some() {
            return found;
        }
    }
    None
}
