// The spelling of networks.

ghost use Rattle.std.specs.Prelude.{◌≤◌, IfSome, IfNone};
ghost use Rattle.px_bytes.specs.Net.{SpellsNet, IsNet};

use crate::split_at::split_at;
use crate::{Net4, read_decimal, read_ip};

/// The most bits of a network, which an address alone has.
const ALL_BITS: u8 = 32;

/// A network `A.B.C.D/BITS`, the bits from 0 to 32 without needless zeros, or an address alone,
/// which has 32. The address stands as it is, also beyond its bits. It takes no memory.
pub fn read_net(text: &[u8]) -> Option<Net4>
    ensures found { IfSome result (λ net. SpellsNet text.now net × (net.bits ≤ 32)) }
    ensures none { IfNone result ((net : Net4) → IsNet net → ¬ SpellsNet text.now net) }
{
    let Some((front, back)) = split_at(text, b'/') else {
        let ip = read_ip(text)?;
        return Some(Net4 { ip, bits: ALL_BITS });
    };
    let ip = read_ip(front)?;
    let bits = read_decimal(back, u64::from(ALL_BITS))?;
    Some(Net4 {
        ip,
        bits: bits as u8,
    })
}
