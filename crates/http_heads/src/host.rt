// The Host field.

ghost use Rattle.std.specs.Prelude.{◌≡◌};
ghost use Rattle.http_heads.specs.Hosts.{host_fits, is_authority, is_host, is_host_byte};

use crate::fields::Fields;
use crate::line::Version;

fn is_host_byte(byte: u8) -> bool
    ensures { result ≡ is_host_byte byte }
{
    byte.is_ascii_alphanumeric() || b"-._~%!$&'()*+;=:[]".as_slice().contains(&byte)
}

/// Whether it may be the value of a Host field.
pub(crate) fn is_host(value: &[u8]) -> bool
    ensures { result ≡ is_host value.now }
{
    value.iter().all(|byte| is_host_byte(*byte))
}

/// Whether it may be the authority of a target.
pub(crate) fn is_authority(text: &[u8]) -> bool
    ensures { result ≡ is_authority text.now }
{
    !text.is_empty() && is_host(text)
}

/// Whether a request of the version has as many Host fields as it must, and no byte in them that
/// is none of a host.
pub(crate) fn host_fits(version: Version, fields: &Fields) -> bool
    ensures { result ≡ host_fits version fields.now }
{
    match (version, fields.count(b"host"), fields.value(b"host")) {
        (Version::Http10, 0, _) => true,
        (_, 1, Some(value)) => is_host(value.as_bytes()),
        _ => false,
    }
}
