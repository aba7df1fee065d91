// The cookie that names a member of a pool.

ghost use Rattle.std.specs.Prelude.{◌≡◌, IfNone, IfOk, IfSome};
ghost use Rattle.px_bytes.specs.declared.addr.Addr.{Addr};
ghost use Rattle.http_cookies.specs.MemberCookie.{IsAddr, bigip_text};

use crate::parts::around;
use px_bytes::{Addr, M, Text, read_decimal};
use std::alloc::Global;

/// The value of the cookie that names this member.
pub fn print_bigip(alloc: Global, member: Addr) -> M<Text>
    ensures { IfOk result (λ text. text ≡ bigip_text member) }
{
    let ip = member.ip.swap_bytes();
    let port = member.port.swap_bytes();
    Ok(Text::from_vec(format!(in alloc; "{ip}.{port}.0000")?.into_bytes()))
}

/// The member that the value of a cookie names. It takes no memory.
pub fn read_bigip(text: &[u8]) -> Option<Addr>
    ensures found { IfSome result (λ member. text.now ≡ bigip_text member) }
    ensures none { IfNone result ((addr : Addr) → IsAddr addr → ¬ (text.now ≡ bigip_text addr)) }
{
    let (ip, port) = around(b'.', text.strip_suffix(b".0000")?);
    let ip = read_decimal(ip, u64::from(u32::MAX))?;
    let port = read_decimal(port, u64::from(u16::MAX))?;
    Some(Addr {
        ip: (ip as u32).swap_bytes(),
        port: (port as u16).swap_bytes(),
    })
}
