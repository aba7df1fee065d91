// The words that choose where a server comes from.

ghost use Rattle.px_bytes.specs.Gives.{Gives};
ghost use Rattle.irule_net.specs.Targets.{addr_of, ip_of, member_ip, member_target, node_target};
ghost use Rattle.irule_net.specs.Targets.{pool_named, pool_target, port_in};

use crate::Target;
use crate::faults::{no_such_member, no_such_pool};
use crate::groups::{PoolMembers, has_member, has_pool};
use px_bytes::{Addr, Raise, TclFault, Text, number};
use std::alloc::Global;
use tcl_encodings::read_address;

/// `NAME [member ADDR [PORT]]`. The words that aren't names are tested first, and the port before
/// the member. A port that isn't given is the virtual server's.
pub(crate) fn pool_target(
    alloc: Global,
    pools: &[PoolMembers],
    port: u16,
    words: &[Text],
) -> Result<Target, Raise>
    ensures { Gives result (pool_target pools.now port words.now) }
{
    match words {
        [name] => {
            pool_named(alloc, pools, name)?;
            Ok(Target::PoolOf(name.copy()?))
        }
        [name, word, addr, rest @ ..] => {
            let ip = member_ip(alloc, word, addr)?;
            pool_named(alloc, pools, name)?;
            let addr = addr_of(alloc, ip, port, rest)?;
            member_target(alloc, pools, name, addr)
        }
        _ => Raise::arity(alloc, b"pool"),
    }
}

/// `ADDR [PORT]`, behind the command of this name.
pub(crate) fn node_target(
    alloc: Global,
    command: &[u8],
    port: u16,
    words: &[Text],
) -> Result<Target, Raise>
    ensures { Gives result (node_target command.now port words.now) }
{
    let [addr, rest @ ..] = words else {
        return Raise::arity(alloc, command);
    };
    let ip = ip_of(alloc, command, addr)?;
    let addr = addr_of(alloc, ip, port, rest)?;
    Ok(Target::NodeAt(addr))
}

/// Tests that there is a pool of this name.
pub(crate) fn pool_named(alloc: Global, pools: &[PoolMembers], name: &Text) -> Result<(), Raise>
    ensures { Gives result (pool_named pools.now name.now) }
{
    if has_pool(name.as_bytes(), pools) {
        Ok(())
    } else {
        no_such_pool(alloc, name.as_bytes())
    }
}

// `member ADDR`
fn member_ip(alloc: Global, word: &Text, addr: &Text) -> Result<u32, Raise>
    ensures { Gives result (member_ip word.now addr.now) }
{
    if word.as_bytes() == b"member".as_slice() {
        ip_of(alloc, b"pool", addr)
    } else {
        Raise::syntax(alloc, b"pool")
    }
}

fn ip_of(alloc: Global, command: &[u8], word: &Text) -> Result<u32, Raise>
    ensures { Gives result (ip_of command.now word.now) }
{
    match read_address(word.as_bytes()) {
        Some(ip) => Ok(ip),
        None => Raise::syntax(alloc, command),
    }
}

// The address with the port that the words say, or with this one where there are none.
fn addr_of(alloc: Global, ip: u32, port: u16, words: &[Text]) -> Result<Addr, Raise>
    ensures { Gives result (addr_of ip port words.now) }
{
    match words {
        [word, ..] => {
            let port = port_in(alloc, number(alloc, word.as_bytes())?)?;
            Ok(Addr { ip, port })
        }
        [] => Ok(Addr { ip, port }),
    }
}

fn port_in(alloc: Global, number: i64) -> Result<u16, Raise>
    ensures { Gives result (port_in number) }
{
    match u16::try_from(number) {
        Ok(port) if 0 < port => Ok(port),
        _ => Err(Raise::Fault(TclFault::out_of_range(alloc)?)),
    }
}

fn member_target(
    alloc: Global,
    pools: &[PoolMembers],
    name: &Text,
    addr: Addr,
) -> Result<Target, Raise>
    ensures { Gives result (member_target pools.now name.now addr) }
{
    if has_member(name.as_bytes(), addr, pools) {
        Ok(Target::MemberOf(name.copy()?, addr))
    } else {
        no_such_member(alloc, addr)
    }
}
