// What a test names and the configuration hasn't.

ghost use Rattle.std.specs.Prelude.{◌≡◌, IfOk, option_map};
ghost use Rattle.std.specs.List.{list_any};
ghost use Rattle.pools.specs.Pools.{has_addr};
ghost use Rattle.shared_store.specs.Store.{pool_of};
ghost use Rattle.test_names.specs.Names.{has_virtual, is_named, pool_in, unnamed_among, unnamed_by};
ghost use Rattle.test_names.specs.Names.{unnamed_in, unnamed_member, unnamed_of, unnamed_virtual};
ghost use Rattle.test_names.specs.Names.{unnamed_words};

use pools::Pool;
use px_bytes::{Addr, M};
use run_config::{Config, Virtual};
use shared_store::{NamedPool, Pools};
use std::alloc::Global;
use test_text::{Deed, PlacedAddr, PlacedDeed, PlacedName, PlacedStep, TestStep};

/// What isn't in a configuration.
#[derive(Clone, Copy)]
pub enum Unnamed {
    Virtual,
    Pool,
    Member,
}

impl Unnamed {
    /// What is wrong, in English.
    pub fn words(self) -> &'static str
        ensures { result.now ≡ unnamed_words self }
    {
        match self {
            Unnamed::Virtual => "no virtual server of this name",
            Unnamed::Pool => "no pool of this name",
            Unnamed::Member => "the pool has no such member",
        }
    }
}

/// What isn't in a configuration, and where its word stands.
#[derive(Clone, Copy)]
pub struct UnnamedAt {
    pub what: Unnamed,
    pub place: usize,
}

fn has_virtual(servers: &[Virtual], name: &[u8]) -> bool
    ensures { result ≡ has_virtual servers.now name.now }
{
    servers.iter().any(|server| server.name.as_bytes() == name)
}

fn unnamed_virtual(config: &Config, to: &PlacedName) -> Option<UnnamedAt>
    ensures { result ≡ unnamed_virtual config.now to.now }
{
    if has_virtual(config.virtuals.as_slice(), to.name.as_bytes()) {
        return None;
    }
    let (what, place) = (Unnamed::Virtual, to.place);
    Some(UnnamedAt { what, place })
}

// The pool of a name.
fn pool_of<'a>(pools: &'a Pools, name: &[u8]) -> Option<&'a Pool>
    ensures { option_map (λ p. p.now) result ≡ pool_of name.now pools.entry.now }
{
    for at in 0..pools.len() {
        let named = pools.get(at);
        if is_named(name, named) {
            return pool_in(named);
        }
    }
    None
}

fn is_named(name: &[u8], named: Option<&NamedPool>) -> bool
    ensures { result ≡ is_named name.now (option_map (λ n. n.now) named.entry) }
{
    match named {
        Some(named) => name == named.name.as_bytes(),
        None => false,
    }
}

fn pool_in<'a>(named: Option<&'a NamedPool>) -> Option<&'a Pool>
    ensures { option_map (λ p. p.now) result ≡ pool_in (option_map (λ n. n.now) named.entry) }
{
    match named {
        Some(named) => Some(&named.pool),
        None => None,
    }
}

// Whether a pool has a member: a mark tells, which a copy of the pool gets.
fn has_member(alloc: Global, pool: &Pool, addr: Addr) -> M<bool>
    ensures { IfOk result (λ is. is ≡ list_any (has_addr addr) pool.now.members) }
{
    let mut copy = pool.copy(alloc)?;
    let is_there = copy.mark(addr, true);
    drop(copy);
    Ok(is_there)
}

fn unnamed_member(
    alloc: Global,
    config: &Config,
    pool: &PlacedName,
    member: PlacedAddr,
) -> M<Option<UnnamedAt>>
    ensures { IfOk result (λ found. found ≡ unnamed_member config.now pool.now member) }
{
    let Some(found) = pool_of(&config.pools, pool.name.as_bytes()) else {
        let (what, place) = (Unnamed::Pool, pool.place);
        return Ok(Some(UnnamedAt { what, place }));
    };
    if has_member(alloc, found, member.addr)? {
        return Ok(None);
    }
    let (what, place) = (Unnamed::Member, member.place);
    Ok(Some(UnnamedAt { what, place }))
}

fn unnamed_in(alloc: Global, config: &Config, deed: &Deed) -> M<Option<UnnamedAt>>
    ensures { IfOk result (λ found. found ≡ unnamed_in config.now deed.now) }
{
    match deed {
        Deed::Comes { to, .. } => Ok(unnamed_virtual(config, to)),
        Deed::Marks { pool, member, .. } => unnamed_member(alloc, config, pool, *member),
        _ => Ok(None),
    }
}

fn unnamed_among(alloc: Global, config: &Config, deeds: &[PlacedDeed]) -> M<Option<UnnamedAt>>
    ensures { IfOk result (λ found. found ≡ unnamed_among config.now deeds.now) }
{
    for placed in deeds {
        if let Some(found) = unnamed_in(alloc, config, &placed.deed)? {
            return Ok(Some(found));
        }
    }
    Ok(None)
}

fn unnamed_by(alloc: Global, config: &Config, step: &TestStep) -> M<Option<UnnamedAt>>
    ensures { IfOk result (λ found. found ≡ unnamed_by config.now step.now) }
{
    match step {
        TestStep::One(deed) => unnamed_in(alloc, config, deed),
        TestStep::Together(deeds) => unnamed_among(alloc, config, deeds.as_slice()),
        TestStep::Expect(_) => Ok(None),
    }
}

/// The first that steps name and a configuration hasn't.
pub fn unnamed_of(alloc: Global, config: &Config, steps: &[PlacedStep]) -> M<Option<UnnamedAt>>
    ensures { IfOk result (λ found. found ≡ unnamed_of config.now steps.now) }
{
    for placed in steps {
        if let Some(found) = unnamed_by(alloc, config, &placed.step)? {
            return Ok(Some(found));
        }
    }
    Ok(None)
}
