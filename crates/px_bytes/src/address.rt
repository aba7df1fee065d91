// The spelling of addresses.

ghost use Rattle.std.specs.Prelude.{◌≡◌, ℕ, ◌^◌, ◌<◌, length, IfSome, IfNone, IfOk, MatchOption};
ghost use Rattle.px_bytes.specs.Address.{ip_text, addr_text, IsAddr, colon_at, SplitsAtColon};

use crate::{Addr, M, Text, read_decimal};
use std::alloc::Global;
use std::net::Ipv4Addr;

/// An address `A.B.C.D`, of four decimals below 256 without needless zeros. It takes no memory.
pub fn read_ip(text: &[u8]) -> Option<u32>
    ensures found { IfSome result (λ ip. text.now ≡ ip_text ip) }
    ensures none { IfNone result ((ip : ℕ) → ip < 2 ^ 32 → ¬ (text.now ≡ ip_text ip)) }
{
    match Ipv4Addr::parse_ascii(text) {
        Ok(address) => Some(address.to_bits()),
        Err(_) => None,
    }
}

/// An address and a port, `A.B.C.D:PORT`, the port from 1 to 65,535 without needless zeros. It
/// takes no memory.
pub fn read_addr(text: &[u8]) -> Option<Addr>
    ensures found { IfSome result (λ addr. (text.now ≡ addr_text addr) × (0 < addr.port)) }
    ensures none { IfNone result ((addr : Addr) → IsAddr addr → ¬ (text.now ≡ addr_text addr)) }
{
    let (front, back) = split_at_colon(text)?;
    let ip = read_ip(front)?;
    match read_decimal(back, u64::from(u16::MAX)) {
        Some(port) if port > 0 => Some(Addr {
            ip,
            port: port as u16,
        }),
        _ => None,
    }
}

// What stands before the first colon, and what behind it.
fn split_at_colon(text: &[u8]) -> Option<(&[u8], &[u8])>
    ensures first { MatchOption result (colon_at text.now ≡ length text.now)
        (λ parts. SplitsAtColon text.now parts.0.now parts.1.now) }
{
    let colon = text.iter().position(|byte| *byte == b':')?;
    Some((&text[..colon], &text[colon + 1..]))
}

/// The address as `A.B.C.D`.
pub fn print_ip(alloc: Global, ip: u32) -> M<Text>
    ensures { IfOk result (λ text. text ≡ ip_text ip) }
{
    let [a, b, c, d] = ip.to_be_bytes();
    Ok(Text::from_vec(format!(in alloc; "{a}.{b}.{c}.{d}")?.into_bytes()))
}

/// The address and the port as `A.B.C.D:PORT`.
pub fn print_addr(alloc: Global, addr: Addr) -> M<Text>
    ensures { IfOk result (λ text. text ≡ addr_text addr) }
{
    let mut text = print_ip(alloc, addr.ip)?;
    text.push(format!(in alloc; ":{}", addr.port)?.as_bytes())?;
    Ok(text)
}
