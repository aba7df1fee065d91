// The bytes under which keys are found.

ghost use Rattle.std.specs.Prelude.{◌≡◌, ◌≤◌, IfOk, option_map};
ghost use Rattle.data_groups.specs.Index.{key_bytes, number_bytes, prefix_bytes};

use crate::GroupKind;
use px_bytes::{M, read_whole};
use std::alloc::Global;
use tcl_encodings::read_network;

/// The bytes of a key, where it is one of the kind.
pub(crate) fn key_bytes(alloc: Global, kind: GroupKind, key: &[u8]) -> M<Option<Vec<u8>>>
    ensures { IfOk result (λ bytes. option_map (λ b. b.items) bytes ≡ key_bytes kind key.now) }
{
    match kind {
        GroupKind::String => Ok(Some(Vec::from_slice(alloc, key)?)),
        GroupKind::Ip => match read_network(key) {
            Some(net) => Ok(Some(Vec::from_slice(alloc, &prefix_bytes(net.bits, net.ip))?)),
            None => Ok(None),
        },
        GroupKind::Integer => match read_whole(key) {
            Some(number) => Ok(Some(Vec::from_slice(alloc, &number_bytes(number))?)),
            None => Ok(None),
        },
    }
}

/// The bytes of a number.
pub(crate) fn number_bytes(number: i64) -> [u8; 8]
    ensures { result ≡ number_bytes number }
{
    number.to_be_bytes()
}

/// The bytes of the first bits of an address.
pub(crate) fn prefix_bytes(bits: u8, ip: u32) -> [u8; 5]
    requires { bits ≤ 32 }
    ensures { result ≡ prefix_bytes bits ip }
{
    let prefix = u64::from(ip) >> (32 - u32::from(bits));
    let [a, b, c, d] = (prefix as u32).to_be_bytes();
    [bits, a, b, c, d]
}
