// The words of calls.

ghost use Rattle.std.specs.Prelude.{◌≡◌};
ghost use Rattle.shared_store.specs.Calls.{call_of, milliseconds, sleeps_for, wanted_by, wanted_of};

use pools::Wanted;
use px_bytes::{Addr, Text, read_whole};
use tcl_encodings::addr_of;

/// Which shared call a list of words is.
#[derive(Clone, Copy, PartialEq, Eq)]
pub(crate) enum Call {
    ActiveMembers,
    Select,
    Table,
    Clock,
    Other,
}

pub(crate) fn call_of(name: &[u8]) -> Call
    ensures { result ≡ call_of name.now }
{
    if name == b"active_members".as_slice() {
        return Call::ActiveMembers;
    }
    if name == b"select".as_slice() {
        return Call::Select;
    }
    if name == b"table".as_slice() {
        return Call::Table;
    }
    if name == b"clock".as_slice() {
        return Call::Clock;
    }
    Call::Other
}

/// What `any`, `wish ADDR` or `only ADDR` asks for.
pub(crate) fn wanted_of(words: &[Text]) -> Option<Wanted>
    ensures { result ≡ wanted_of words.now }
{
    match words {
        [word] if word.as_bytes() == b"any".as_slice() => Some(Wanted::Any),
        [word, addr] => wanted_by(word.as_bytes(), addr_of(addr.as_bytes())),
        _ => None,
    }
}

fn wanted_by(word: &[u8], addr: Option<Addr>) -> Option<Wanted>
    ensures { result ≡ wanted_by word.now addr }
{
    let addr = addr?;
    if word == b"wish".as_slice() {
        return Some(Wanted::Wish(addr));
    }
    if word == b"only".as_slice() {
        return Some(Wanted::Only(addr));
    }
    None
}

/// For how many milliseconds a call sleeps before it is answered: MS for `after MS`, 0 for any other.
pub fn sleeps_for(call: &[Text]) -> u64
    ensures { result ≡ sleeps_for call.now }
{
    match call {
        [name, word] if name.as_bytes() == b"after".as_slice() => milliseconds(read_whole(
            word.as_bytes(),
        )),
        _ => 0,
    }
}

fn milliseconds(number: Option<i64>) -> u64
    ensures { result ≡ milliseconds number }
{
    match number {
        Some(number) => u64::try_from(number).unwrap_or(0),
        None => 0,
    }
}
