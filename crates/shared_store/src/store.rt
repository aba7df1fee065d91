// The store that all connections share.

ghost use Rattle.std.specs.Prelude.{◌≡◌, [], IfOk, OnOk, OnErr, false};
ghost use Rattle.std.specs.Fmt.{decimal};
ghost use Rattle.px_bytes.specs.declared.fault.Reply.TheVariants.{Ok as Replied};
ghost use Rattle.shared_store.specs.Calls.{active_members, by_source, chosen, clock, live_reply};
ghost use Rattle.shared_store.specs.Calls.{member_text, reply, select, select_any, select_by};
ghost use Rattle.shared_store.specs.Calls.{select_wanted, selected_addr, table, up_member};
ghost use Rattle.shared_store.specs.Sources.{source_in};
ghost use Rattle.shared_store.specs.Store.{StoreState, at_moment, has_member, marked, new_store};
ghost use Rattle.shared_store.specs.Store.{pool_of};

use crate::source::{Source, source_of};
use crate::words::{Call, call_of, wanted_of};
use crate::{Pools, VirtualTimes};
use persistence::{Record, Records};
use pools::{Pool, Wanted};
use px_bytes::{Addr, M, Reply, Text, Texts, print_addr};
use session_table::SessionTable;
use std::alloc::Global;
use std::marker::Model;

/// The session table, the records of source addresses, pools, and the times of virtual servers.
#[derive(Drop)]
pub struct Store {
    table: SessionTable,
    records: Records,
    pools: Pools,
    virtuals: VirtualTimes,
}

impl Model for Store {
    ghost Value = { StoreState };

    ghost view = { λ s. record {
      table = s.table;
      records = s.records;
      pools = s.pools;
      virtuals = s.virtuals;
    } };
}

impl Store {
    /// A store without records, and without rows, of which so many may be live. It takes no memory.
    pub fn new(alloc: Global, pools: Pools, virtuals: VirtualTimes, rows: u32) -> Store
        ensures { result ≡ new_store pools virtuals rows }
    {
        Store {
            table: SessionTable::new(alloc, rows),
            records: Records::new(alloc),
            pools,
            virtuals,
        }
    }

    /// Takes away the rows and records that aren't live at a moment, and takes no memory.
    pub fn expire(&mut self, moment: u64)
        ensures { self.new ≡ at_moment moment self.old }
    {
        self.table.expire(moment);
        self.records.expire(moment);
    }

    /// The reply to a call at a moment, in milliseconds. Rows and records that aren't live at it are
    /// gone, also where memory is refused. What isn't a call, or names a pool that isn't there, has an
    /// empty reply and changes nothing else.
    pub fn answer(&mut self, alloc: Global, call: &Texts, moment: u64) -> M<Reply>
        ensures reply { IfOk result (λ r. r ≡ (reply self.old moment call.now).reply) }
        ensures after { OnOk result (self.new ≡ (reply self.old moment call.now).after) }
        ensures err { OnErr result (self.new ≡ at_moment moment self.old) }
    {
        self.expire(moment);
        self.reply(alloc, call, moment)
    }

    /// The same where all rows and records are live at the moment; what isn't live counts too.
    pub fn reply(&mut self, alloc: Global, call: &Texts, moment: u64) -> M<Reply>
        ensures reply { IfOk result (λ r. r ≡ (live_reply self.old moment call.now).reply) }
        ensures after { OnOk result (self.new ≡ (live_reply self.old moment call.now).after) }
        ensures err { OnErr result (self.new ≡ self.old) }
    {
        self.live_reply(alloc, call.as_slice(), moment)
    }

    /// Marks a member of a pool up or down, where there is one. It takes no memory.
    pub fn mark(&mut self, pool: &[u8], member: Addr, up: bool) -> bool
        ensures there { result ≡ has_member member (pool_of pool.now self.old.pools) }
        ensures marked { self.new ≡ marked pool.now member up self.old }
        ensures same { result ≡ false → self.new ≡ self.old }
    {
        self.pools.mark(pool, member, up)
    }

    // The reply to a call where all is live.
    fn live_reply(&mut self, alloc: Global, call: &[Text], moment: u64) -> M<Reply>
        ensures reply { IfOk result (λ r. r ≡ (live_reply self.old moment call.now).reply) }
        ensures after { OnOk result (self.new ≡ (live_reply self.old moment call.now).after) }
        ensures err { OnErr result (self.new ≡ self.old) }
    {
        let [name, words @ ..] = call else {
            return Ok(no_reply(alloc));
        };
        match call_of(name.as_bytes()) {
            Call::ActiveMembers => self.active_members(alloc, words),
            Call::Select => self.select(alloc, words, moment),
            Call::Table => self.table(alloc, words, moment),
            Call::Clock => self.clock(alloc, words, moment),
            Call::Other => Ok(no_reply(alloc)),
        }
    }

    // `active_members POOL`
    fn active_members(&self, alloc: Global, words: &[Text]) -> M<Reply>
        ensures { IfOk result (λ r. r ≡ (active_members words.now self.now).reply) }
    {
        let [name] = words else {
            return Ok(no_reply(alloc));
        };
        match self.pools.find(name.as_bytes()) {
            Some(pool) => number_reply(alloc, u64::from(pool.up_count())),
            None => Ok(no_reply(alloc)),
        }
    }

    // `table` and its words
    fn table(&mut self, alloc: Global, words: &[Text], moment: u64) -> M<Reply>
        ensures reply { IfOk result (λ r. r ≡ (table words.now moment self.old).reply) }
        ensures after { OnOk result (self.new ≡ (table words.now moment self.old).after) }
        ensures err { OnErr result (self.new ≡ self.old) }
    {
        self.table.reply(alloc, words, moment)
    }

    // `clock seconds`
    fn clock(&self, alloc: Global, words: &[Text], moment: u64) -> M<Reply>
        ensures { IfOk result (λ r. r ≡ (clock words.now moment self.now).reply) }
    {
        match words {
            [word] if word.as_bytes() == b"seconds".as_slice() => {
                number_reply(alloc, moment / 1000)
            }
            _ => Ok(no_reply(alloc)),
        }
    }

    // `select VIRTUAL POOL IP` and what is wanted
    fn select(&mut self, alloc: Global, words: &[Text], moment: u64) -> M<Reply>
        ensures reply { IfOk result (λ r. r ≡ (select words.now moment self.old).reply) }
        ensures after { OnOk result (self.new ≡ (select words.now moment self.old).after) }
        ensures err { OnErr result (self.new ≡ self.old) }
    {
        let source = self.source(words);
        let [_virtual, name, _ip, wanted @ ..] = words else {
            return Ok(no_reply(alloc));
        };
        self.select_by(alloc, name.as_bytes(), source, wanted_of(wanted), moment)
    }

    // The client's address of `VIRTUAL POOL IP ..`, where the virtual server keeps members.
    fn source(&self, words: &[Text]) -> Option<Source>
        ensures { result ≡ source_in words.now self.now.virtuals }
    {
        match words {
            [name, _pool, ip, ..] => source_of(&self.virtuals, name.as_bytes(), ip.as_bytes()),
            _ => None,
        }
    }

    fn select_by(
        &mut self,
        alloc: Global,
        name: &[u8],
        source: Option<Source>,
        wanted: Option<Wanted>,
        moment: u64,
    ) -> M<Reply>
        ensures reply { let pool = pool_of name.now self.old.pools in
            IfOk result (λ r. r
            ≡ (select_by name.now pool source wanted moment self.old).reply) }
        ensures after { let pool = pool_of name.now self.old.pools in
            OnOk result (self.new
            ≡ (select_by name.now pool source wanted moment self.old).after) }
        ensures err { OnErr result (self.new ≡ self.old) }
    {
        match wanted {
            Some(Wanted::Any) => self.select_any(alloc, name, source, moment),
            Some(Wanted::Wish(addr)) => self.select_wanted(alloc, name, Wanted::Wish(addr)),
            Some(Wanted::Only(addr)) => self.select_wanted(alloc, name, Wanted::Only(addr)),
            None => Ok(no_reply(alloc)),
        }
    }

    fn select_any(
        &mut self,
        alloc: Global,
        name: &[u8],
        source: Option<Source>,
        moment: u64,
    ) -> M<Reply>
        ensures reply { let pool = pool_of name.now self.old.pools in
            IfOk result (λ r. r ≡ (select_any name.now pool source moment self.old).reply) }
        ensures after { let pool = pool_of name.now self.old.pools in
            OnOk result (self.new ≡ (select_any name.now pool source moment self.old).after) }
        ensures err { OnErr result (self.new ≡ self.old) }
    {
        match source {
            Some(source) => self.select_by_source(alloc, name, source, moment),
            None => self.select_wanted(alloc, name, Wanted::Any),
        }
    }

    // A selection that no record bears on.
    fn select_wanted(&mut self, alloc: Global, name: &[u8], wanted: Wanted) -> M<Reply>
        ensures reply { IfOk result (λ r. r
            ≡ (select_wanted name.now (pool_of name.now self.old.pools) wanted self.old).reply) }
        ensures after { OnOk result (self.new
            ≡ (select_wanted name.now (pool_of name.now self.old.pools) wanted self.old).after) }
        ensures err { OnErr result (self.new ≡ self.old) }
    {
        let Some(pool) = self.pools.find(name) else {
            return Ok(no_reply(alloc));
        };
        let text = member_text(alloc, selected_addr(pool, wanted))?;
        self.pools.select(name, wanted);
        Ok(Reply::Ok(text))
    }

    // A selection for a client's address: its record answers where the member is up, else what is
    // selected is kept.
    fn select_by_source(
        &mut self,
        alloc: Global,
        name: &[u8],
        source: Source,
        moment: u64,
    ) -> M<Reply>
        ensures reply { IfOk result (λ r. r ≡ (by_source name.now
            (pool_of name.now self.old.pools) source moment self.old).reply) }
        ensures after { OnOk result (self.new ≡ (by_source name.now
            (pool_of name.now self.old.pools) source moment self.old).after) }
        ensures err { OnErr result (self.new ≡ self.old) }
    {
        let Some(pool) = self.pools.find(name) else {
            return Ok(no_reply(alloc));
        };
        let held = self.records.find(source.virtual_server, source.ip);
        if let Some(member) = up_member(pool, held) {
            let text = print_addr(alloc, member)?;
            self.records.keep(chosen(source, member, moment))?;
            return Ok(Reply::Ok(text));
        }
        let selected = selected_addr(pool, Wanted::Any);
        let text = member_text(alloc, selected)?;
        if let Some(member) = selected {
            self.records.keep(chosen(source, member, moment))?;
        }
        self.pools.select(name, Wanted::Any);
        Ok(Reply::Ok(text))
    }
}

fn number_reply(alloc: Global, number: u64) -> M<Reply>
    ensures { IfOk result (λ r. r ≡ Replied (decimal number)) }
{
    let text = format!(in alloc; "{number}")?;
    Ok(Reply::Ok(Text::from_vec(text.into_bytes())))
}

fn no_reply(alloc: Global) -> Reply
    ensures { result ≡ Replied [] }
{
    Reply::Ok(Text::empty(alloc))
}

// The address of the member that a selection would take.
fn selected_addr(pool: &Pool, wanted: Wanted) -> Option<Addr>
    ensures { result ≡ selected_addr pool.now wanted }
{
    pool.member(pool.peek(wanted)?)
}

// A member, where it is in the pool and up.
fn up_member(pool: &Pool, member: Option<Addr>) -> Option<Addr>
    ensures { result ≡ up_member pool.now member }
{
    let member = member?;
    pool.peek(Wanted::Only(member)).map(|_| member)
}

// The record of a choice.
fn chosen(source: Source, member: Addr, moment: u64) -> Record
    ensures { result ≡ chosen source member moment }
{
    Record {
        virtual_server: source.virtual_server,
        ip: source.ip,
        member,
        timeout: source.timeout,
        touched: moment,
    }
}

fn member_text(alloc: Global, addr: Option<Addr>) -> M<Text>
    ensures { IfOk result (λ text. text ≡ member_text addr) }
{
    match addr {
        Some(addr) => print_addr(alloc, addr),
        None => Ok(Text::empty(alloc)),
    }
}
