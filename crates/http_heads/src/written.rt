// Parts of heads as they are written.

ghost use Rattle.std.specs.Prelude.{◌≡◌, ◌++◌, ◌<◌, OnOk, map};
ghost use Rattle.httparse.specs.Grammar.{crlf, print_field, print_section, print_version};
ghost use Rattle.http_heads.specs.Lines.{minor_of};
ghost use Rattle.http_heads.specs.Written.{code_digits, line_of, lines_of};

use crate::line::{StatusCode, Version};
use px_bytes::{M, Text};

/// The text of a version.
pub fn put_version(out: &mut Vec<u8>, version: Version) -> M<()>
    ensures { OnOk result (out.new.items ≡ out.old.items ++ print_version (minor_of version)) }
{
    let text = match version {
        Version::Http10 => b"HTTP/1.0",
        Version::Http11 => b"HTTP/1.1",
    };
    out.extend_from_slice(text)?;
    Ok(())
}

/// The digits of a status.
pub fn put_status(out: &mut Vec<u8>, status: &StatusCode) -> M<()>
    ensures text { OnOk result (out.new.items ≡ out.old.items ++ code_digits status.now) }
    ensures three_digits { status.now < 1000 }
{
    let code = status.code();
    let digits = [
        b'0' + (code / 100) as u8,
        b'0' + (code / 10 % 10) as u8,
        b'0' + (code % 10) as u8,
    ];
    out.extend_from_slice(&digits)?;
    Ok(())
}

/// The line of a field.
pub fn put_field(out: &mut Vec<u8>, name: &[u8], value: &[u8]) -> M<()>
    ensures { OnOk result (out.new.items
        ≡ out.old.items ++ print_field (line_of (name.now, value.now))) }
{
    out.extend_from_slice(name)?;
    out.extend_from_slice(b": ")?;
    out.extend_from_slice(value)?;
    out.extend_from_slice(b"\r\n")?;
    Ok(())
}

fn put_lines(out: &mut Vec<u8>, fields: &[(Text, Text)]) -> M<()>
    ensures { OnOk result (out.new.items
        ≡ out.old.items ++ lines_of fields.now) }
{
    for field in fields {
        put_field(out, field.0.as_bytes(), field.1.as_bytes())?;
    }
    Ok(())
}

/// The lines of fields, and the empty line behind them.
pub(crate) fn put_section(out: &mut Vec<u8>, fields: &[(Text, Text)]) -> M<()>
    ensures { OnOk result (out.new.items
        ≡ out.old.items ++ print_section (map line_of fields.now) crlf) }
{
    put_lines(out, fields)?;
    out.extend_from_slice(b"\r\n")?;
    Ok(())
}
