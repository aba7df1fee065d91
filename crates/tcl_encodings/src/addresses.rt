// The command `IP::addr`.

ghost use Rattle.std.specs.Prelude.{◌≡◌, ◌≤◌, IfSome};
ghost use Rattle.px_bytes.specs.Gives.{Gives};
ghost use Rattle.tcl_encodings.specs.Addresses.{address_of, agrees, compared, ip_addr_value};
ghost use Rattle.tcl_encodings.specs.Addresses.{network_of};

use px_bytes::{Net4, Raise, Text, read_ip, read_net};
use std::alloc::Global;

const NAME: &[u8] = b"IP::addr";

/// `IP::addr ADDR equals NET`: 1 where the address agrees with the network in the network's bits,
/// else 0.
pub fn ip_addr(alloc: Global, arguments: &[Text]) -> Result<Text, Raise>
    ensures { Gives result (ip_addr_value arguments.now) }
{
    let [address, word, network] = arguments else {
        return Raise::arity(alloc, NAME);
    };
    match compared(address.as_bytes(), word.as_bytes(), network.as_bytes()) {
        Some(true) => Ok(Text::new(alloc, b"1")?),
        Some(false) => Ok(Text::new(alloc, b"0")?),
        None => Raise::syntax(alloc, NAME),
    }
}

fn compared(address: &[u8], word: &[u8], network: &[u8]) -> Option<bool>
    ensures { result ≡ compared address.now word.now network.now }
{
    if word != b"equals".as_slice() {
        return None;
    }
    let ip = read_address(address)?;
    let net = read_network(network)?;
    Some(agrees(ip, net))
}

/// The address that a text is. It takes no memory.
pub fn read_address(text: &[u8]) -> Option<u32>
    ensures { result ≡ address_of text.now }
{
    read_ip(text)
}

/// The network that a text is. It takes no memory.
pub fn read_network(text: &[u8]) -> Option<Net4>
    ensures value { result ≡ network_of text.now }
    ensures bits { IfSome result (λ net. net.bits ≤ 32) }
{
    read_net(text)
}

// Whether an address has the network's first bits.
fn agrees(ip: u32, net: Net4) -> bool
    requires { net.bits ≤ 32 }
    ensures { result ≡ agrees ip net }
{
    let others = 32 - u32::from(net.bits);
    u64::from(ip) >> others == u64::from(net.ip) >> others
}
