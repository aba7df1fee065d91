// Which server is asked for a connection.

ghost use Rattle.std.specs.Prelude.{[], ◌∷◌, ◌++◌, ◌≡◌, IfOk, OnErr, OnOk};
ghost use Rattle.px_bytes.specs.Address.{ip_text};
ghost use Rattle.irule_net.specs.Steps.{target_pool};
ghost use Rattle.conn_trace.specs.Selected.{only_member};
ghost use Rattle.conn.specs.Changes.{Enters};
ghost use Rattle.conn.specs.Choosing.{Chooses, TakesChosen, asked_call, plan_of, wanted_of};

use crate::connection::Conn;
use crate::events::At;
use crate::setup::Setup;
use crate::stage::Stage;
use crate::turn::Act;
use irule_net::{NetState, Selected, Target};
use px_bytes::{Addr, M, Text, Texts, print_addr, print_ip};
use std::alloc::Global;

/// How a server is to be selected.
#[derive(Drop)]
pub(crate) enum Plan {
    /// There is none.
    Nothing,
    /// It is this one.
    Node(Addr),
    /// A member of this pool, any or this one alone.
    Member(Text, Option<Addr>),
}

impl Conn {
    /// Selects the server that the rules chose, or asks for it, or finds none.
    pub(crate) fn choose(&mut self, alloc: Global, setup: &Setup<'_>) -> M<Act>
        ensures chooses { IfOk result (λ act. Chooses setup.now self.old self.new act) }
        ensures kept { OnErr result (self.new.ends.edges ≡ self.old.ends.edges) }
    {
        let plan = plan_of(&self.host.net)?;
        self.host.select(None);
        match plan {
            Plan::Nothing => {
                self.enter(setup, At::Failed);
                Ok(Act::Goes)
            }
            Plan::Node(addr) => {
                let pool = Text::empty(alloc);
                self.host.select(Some(Selected { pool, addr }));
                self.enter(setup, At::Selected);
                Ok(Act::Goes)
            }
            Plan::Member(pool, only) => {
                let call = select_call(alloc, setup, self.host.net.from, pool, only)?;
                self.stage = Stage::Selecting;
                Ok(Act::Asks(call))
            }
        }
    }

    /// Takes the reply that spells this address or none.
    pub(crate) fn take_chosen(
        &mut self,
        alloc: Global,
        setup: &Setup<'_>,
        addr: Option<Addr>,
    ) -> M<()>
        ensures takes { OnOk result (TakesChosen setup.now addr self.old self.new) }
        ensures kept { OnErr result (self.new.ends.edges ≡ self.old.ends.edges) }
    {
        match addr {
            Some(addr) => {
                let pool = pool_of(alloc, &self.host.net)?;
                self.host.select(Some(Selected { pool, addr }));
                self.enter(setup, At::Selected);
            }
            None => self.enter(setup, At::Failed),
        }
        Ok(())
    }

    /// An event is entered.
    pub(crate) fn enter(&mut self, setup: &Setup<'_>, at: At)
        ensures { Enters setup.now at self.old.host self.old.ends self.old self.new }
    {
        self.host.begin(at, self.ends.link.is_up());
        self.stage = setup.enter(at, self.ends.link, &self.host);
    }
}

fn plan_of(net: &NetState) -> M<Plan>
    ensures { IfOk result (λ plan. plan ≡ plan_of net.now) }
{
    Ok(match &net.target {
        Target::Default if net.pool.as_bytes().is_empty() => Plan::Nothing,
        Target::Default => Plan::Member(net.pool.copy()?, None),
        Target::PoolOf(pool) => Plan::Member(pool.copy()?, None),
        Target::MemberOf(pool, addr) => Plan::Member(pool.copy()?, Some(*addr)),
        Target::NodeAt(addr) => Plan::Node(*addr),
    })
}

// The pool that the rules chose, or the default one; none for a node.
fn pool_of(alloc: Global, net: &NetState) -> M<Text>
    ensures { IfOk result (λ pool. pool ≡ target_pool net.now.pool net.now.target) }
{
    match &net.target {
        Target::Default => net.pool.copy(),
        Target::PoolOf(pool) => pool.copy(),
        Target::MemberOf(pool, _) => pool.copy(),
        Target::NodeAt(_) => Ok(Text::empty(alloc)),
    }
}

// The shared call that selects a member of a pool. What has exits borrows it, since each exit would
// drop it anew.
fn select_call(
    alloc: Global,
    setup: &Setup<'_>,
    from: Addr,
    pool: Text,
    only: Option<Addr>,
) -> M<Texts>
    ensures { IfOk result (λ call. call ≡ asked_call setup.now from pool (wanted_of only)) }
{
    let mut call = Texts::new(alloc);
    match fill(alloc, &mut call, setup, from, pool, only) {
        Ok(()) => Ok(call),
        Err(memory) => {
            drop(call);
            Err(memory)
        }
    }
}

fn fill(
    alloc: Global,
    call: &mut Texts,
    setup: &Setup<'_>,
    from: Addr,
    pool: Text,
    only: Option<Addr>,
) -> M<()>
    ensures { let words = asked_call setup.now from pool (wanted_of only) in
        OnOk result (call.new ≡ call.old ++ words) }
{
    add(alloc, call, b"select")?;
    add(alloc, call, setup.name)?;
    call.push(pool)?;
    add_wanted(alloc, call, from, only)
}

// For which client, and which members will do.
fn add_wanted(alloc: Global, call: &mut Texts, from: Addr, only: Option<Addr>) -> M<()>
    ensures { OnOk result (call.new ≡ call.old ++ ip_text from.ip ∷ wanted_of only) }
{
    call.push(print_ip(alloc, from.ip)?)?;
    match only {
        None => add(alloc, call, b"any"),
        Some(addr) => add_only(alloc, call, addr),
    }
}

fn add_only(alloc: Global, call: &mut Texts, addr: Addr) -> M<()>
    ensures { OnOk result (call.new ≡ call.old ++ only_member addr) }
{
    add(alloc, call, b"only")?;
    call.push(print_addr(alloc, addr)?)
}

fn add(alloc: Global, call: &mut Texts, word: &[u8]) -> M<()>
    ensures { OnOk result (call.new ≡ call.old ++ word.now ∷ []) }
{
    call.push(Text::new(alloc, word)?)
}
