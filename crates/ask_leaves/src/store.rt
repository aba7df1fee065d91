// The calls of a store, one after another.

use crate::pool_calls::pool;
use pools::Pool;
use px_bytes::{M, Memory, Reply, Text};
use questions::Question;
use shared_store::{NamedPool, Pools, Store, VirtualTime, VirtualTimes};
use std::alloc::Global;

/// The name of the one pool of such a store.
const POOL: &[u8] = b"p";

/// The name of its one virtual server, and for how many seconds that keeps members.
const SERVER: &[u8] = b"s";

const TIMEOUT: u32 = 180;

/// A store with the pool `p` of the words before `/`, and behind it its calls, with `;` between. A call
/// is its words as texts; `up` or `down` and an address, which mark a member; or `at` and a moment, at
/// which the further calls come.
pub fn answer(question: &mut Question<'_>) {
    if let Some(pool) = pool(question) {
        match store(question.alloc, pool) {
            Ok(mut store) => calls(question, &mut store),
            Err(Memory) => question.refuse(),
        }
    }
}

fn store(alloc: Global, pool: Pool) -> M<Store> {
    let mut pools = Pools::new(alloc);
    let name = Text::new(alloc, POOL)?;
    pools.push(NamedPool { name, pool })?;
    Ok(Store::new(alloc, pools, virtuals(alloc)?, 65_536))
}

fn virtuals(alloc: Global) -> M<VirtualTimes> {
    let mut virtuals = VirtualTimes::new(alloc);
    virtuals.push(VirtualTime {
        name: Text::new(alloc, SERVER)?,
        by_source: true,
        timeout: TIMEOUT,
    })?;
    Ok(virtuals)
}

// The answers of the calls; `at` has none.
fn calls(question: &mut Question<'_>, store: &mut Store) {
    let mut moment = call(question, store, 0);
    for _ in 0..question.left() {
        if question.takes(";") {
            moment = call(question, store, moment);
        }
    }
}

// The answer of a call, and the moment at which the next one comes.
fn call(question: &mut Question<'_>, store: &mut Store, moment: u64) -> u64 {
    if question.takes("at") {
        return question.number(1 << 53);
    }
    if question.takes("up") {
        mark(question, store, true);
    } else if question.takes("down") {
        mark(question, store, false);
    } else {
        reply(question, store, moment);
    }
    moment
}

fn mark(question: &mut Question<'_>, store: &mut Store, up: bool) {
    let member = question.address();
    question.say_truth(store.mark(POOL, member, up));
}

fn reply(question: &mut Question<'_>, store: &mut Store, moment: u64) {
    let call = question.texts(question.before(";"));
    let reply = store.answer(question.alloc, &call, moment);
    say_reply(question, &reply);
}

fn say_reply(question: &mut Question<'_>, reply: &M<Reply>) {
    match reply {
        Ok(Reply::Ok(text)) => question.say_bytes(text.as_bytes()),
        Ok(Reply::Fault(_)) => question.say("fault"),
        Err(Memory) => question.refuse(),
    }
}
