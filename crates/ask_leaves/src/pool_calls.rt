// The calls of a pool, one after another.

use pools::{Member, Members, Method, Pool, Wanted, are_members};
use questions::Question;

pub fn answer(question: &mut Question<'_>) {
    if let Some(mut pool) = pool(question) {
        operations(question, &mut pool);
    }
}

fn operations(question: &mut Question<'_>, pool: &mut Pool) {
    for _ in 0..question.left() {
        if question.has_more() {
            operation(question, pool);
        }
    }
}

/// The calls of a pool with groups by priority.
pub fn answer_priorities(question: &mut Question<'_>) {
    let method = method(question);
    let min_active = question.number(1000) as u32;
    let members = members(question, true);
    if let Some(mut pool) = made(question, method, members, min_active) {
        operations(question, &mut pool);
    }
}

/// A pool by its method, and the address and the ratio of each member, up to `/`.
pub fn pool(question: &mut Question<'_>) -> Option<Pool> {
    let method = method(question);
    let members = members(question, false);
    made(question, method, members, 0)
}

fn made(
    question: &mut Question<'_>,
    method: Method,
    members: Members,
    min_active: u32,
) -> Option<Pool> {
    if question.word() != "/" || !are_members(&members) {
        question.unknown();
        return None;
    }
    match Pool::new(question.alloc, method, members, min_active) {
        Ok(pool) => Some(pool),
        Err(_) => {
            question.refuse();
            None
        }
    }
}

fn method(question: &mut Question<'_>) -> Method {
    match question.word() {
        "round_robin" => Method::RoundRobin,
        "ratio" => Method::Ratio,
        _ => {
            question.unknown();
            Method::RoundRobin
        }
    }
}

// Each member by its address, its ratio and, where they have one, its priority.
fn members(question: &mut Question<'_>, with_priority: bool) -> Members {
    let mut members = Members::new(question.alloc);
    let words = if with_priority { 3 } else { 2 };
    for _ in 0..question.before("/").div_ceil(words) {
        let addr = question.address();
        let ratio = question.number(100) as u8;
        let priority = if with_priority {
            question.number(100) as u8
        } else {
            0
        };
        question.note(members.push(Member {
            addr,
            ratio,
            priority,
        }));
    }
    members
}

fn operation(question: &mut Question<'_>, pool: &mut Pool) {
    match question.word() {
        "count" => question.say_number(u64::from(pool.up_count())),
        "member" => {
            let at = question.number(u64::from(u32::MAX)) as u32;
            question.say_address(pool.member(at));
        }
        "any" => say_member(question, pool.select(Wanted::Any)),
        "peek_any" => say_member(question, pool.peek(Wanted::Any)),
        operation => address_operation(question, pool, operation),
    }
}

// The operations that take an address.
fn address_operation(question: &mut Question<'_>, pool: &mut Pool, operation: &str) {
    let addr = question.address();
    match operation {
        "wish" => say_member(question, pool.select(Wanted::Wish(addr))),
        "only" => say_member(question, pool.select(Wanted::Only(addr))),
        "peek_wish" => say_member(question, pool.peek(Wanted::Wish(addr))),
        "peek_only" => say_member(question, pool.peek(Wanted::Only(addr))),
        "up" => question.say_truth(pool.mark(addr, true)),
        "down" => question.say_truth(pool.mark(addr, false)),
        _ => question.unknown(),
    }
}

fn say_member(question: &mut Question<'_>, at: Option<u32>) {
    match at {
        Some(at) => question.say_number(u64::from(at)),
        None => question.say("none"),
    }
}
