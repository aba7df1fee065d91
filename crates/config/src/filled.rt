// What a proxy runs for a configuration that loaded.

ghost use Rattle.std.specs.Prelude.{◌≡◌, ◌<◌, ◌++◌, IfOk, IfSome, OnOk, length, map};
ghost use Rattle.config.specs.Filled.{filled, filled_with, listed, number_of, numbers_of, pool_of};
ghost use Rattle.config.specs.Filled.{server_of};

use crate::config::{Settings, VirtualSettings};
use crate::made_groups::{Made, made_groups};
use crate::reader::LoadedConfig;
use crate::rule_text::LoadedRule;
use px_bytes::{M, Seq, Text};
use run_config::{Config, Virtual};
use std::alloc::Global;

impl LoadedConfig {
    /// What a proxy runs for it. There is always such a configuration for one that loaded
    /// (`loaded_is_filled`).
    #[tactic(auto, unfolding(crate::specs::Filled::filled))]
    pub fn filled(self, alloc: Global) -> M<Option<Config>>
        ensures { IfOk result (λ run. run ≡ filled self) }
    {
        match made_groups(alloc, &self.settings)? {
            Some(made) => Ok(Some(filled_with(alloc, self, made)?)),
            None => Ok(None),
        }
    }
}

// With these data groups and pools.
fn filled_with(alloc: Global, loaded: LoadedConfig, made: Made) -> M<Config>
    ensures { IfOk result (λ run. run ≡ filled_with loaded made) }
{
    let LoadedConfig { settings, rules } = loaded;
    let Made { groups, pools } = made;
    let virtuals = servers_of(alloc, rules.as_slice(), settings.virtuals.as_slice())?;
    Ok(Config {
        budget: settings.budget,
        connections: settings.connections,
        idle: settings.idle,
        rows: settings.rows,
        groups,
        pools,
        rules: rules.into_rules(alloc)?,
        virtuals,
    })
}

fn servers_of(alloc: Global, rules: &[LoadedRule], servers: &[VirtualSettings]) -> M<Seq<Virtual>>
    ensures { IfOk result (λ made. made ≡ map (server_of rules.now) servers.now) }
{
    let mut made = Seq::new(alloc);
    for server in servers {
        made.push(server_of(alloc, rules, server)?)?;
    }
    Ok(made)
}

fn server_of(alloc: Global, rules: &[LoadedRule], server: &VirtualSettings) -> M<Virtual>
    ensures { IfOk result (λ v. v ≡ server_of rules.now server.now) }
{
    Ok(Virtual {
        name: server.name.copy()?,
        listen: server.listen,
        http: server.http,
        pool: pool_of(alloc, server)?,
        persist: server.persist,
        persist_timeout: server.persist_timeout,
        rules: numbers_of(alloc, rules, server.rules.as_slice())?,
    })
}

// The name of its default pool, empty where it has none.
fn pool_of(alloc: Global, server: &VirtualSettings) -> M<Text>
    ensures { IfOk result (λ pool. pool ≡ pool_of server.now) }
{
    match &server.pool {
        Some(name) => name.copy(),
        None => Ok(Text::empty(alloc)),
    }
}

fn numbers_of(alloc: Global, rules: &[LoadedRule], names: &[Text]) -> M<Seq<usize>>
    ensures { IfOk result (λ numbers. numbers ≡ numbers_of rules.now names.now) }
{
    let mut numbers = Seq::new(alloc);
    for name in names {
        add_number(&mut numbers, rules, name.as_bytes())?;
    }
    Ok(numbers)
}

fn add_number(numbers: &mut Seq<usize>, rules: &[LoadedRule], name: &[u8]) -> M<()>
    ensures { OnOk result (numbers.new ≡ numbers.old ++ listed (number_of rules.now name.now)) }
{
    match number_of(rules, name) {
        Some(number) => numbers.push(number),
        None => Ok(()),
    }
}

fn number_of(rules: &[LoadedRule], name: &[u8]) -> Option<usize>
    ensures number { result ≡ number_of rules.now name.now }
    ensures within { IfSome result (λ at. at < length rules.now) }
{
    rules.iter().position(|r| r.rule.name.as_bytes() == name)
}
