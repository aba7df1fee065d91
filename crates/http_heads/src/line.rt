// The parts of a first line. Each type holds only what a head may have there.

ghost use Rattle.std.specs.Prelude.{◌≡◌, ◌<◌, ◌≤◌, true, IfOk, IfSome};
ghost use Rattle.http_heads.specs.Lines.{IsTarget, is_visible_target, minor_of, target_made};
ghost use Rattle.httparse.specs.Grammar.{is_token, is_value_byte};
ghost use Rattle.std.specs.List.{list_all};

use px_bytes::{M, Text};
use std::marker::Model;

/// HTTP/1.0 or HTTP/1.1: RFC 9112, 2.3.
#[derive(Clone, Copy, PartialEq, Eq)]
pub enum Version {
    Http10,
    Http11,
}

/// The version of a minor number.
pub(crate) fn version_of(minor: u8) -> Version
    requires { minor ≤ 1 }
    ensures { minor_of result ≡ minor }
{
    match minor {
        0 => Version::Http10,
        _ => Version::Http11,
    }
}

impl Version {
    /// 0 or 1.
    pub fn minor(self) -> u8
        ensures { result ≡ minor_of self }
    {
        match self {
            Version::Http10 => 0,
            Version::Http11 => 1,
        }
    }
}

/// The method of a request, a token: RFC 9110, 9.1.
#[derive(Drop)]
pub struct RequestMethod {
    text: Text,
}

impl Model for RequestMethod {
    ghost use Rattle.std.specs.Prelude.{◌≡◌, ℕ, List, true};
    ghost use Rattle.httparse.specs.Grammar.{is_token};

    ghost Value = { List ℕ };

    ghost view = { λ m. m.text };

    ghost invariant = { λ m. is_token m.text ≡ true };
}

impl RequestMethod {
    pub(crate) fn new(text: Text) -> RequestMethod
        requires { is_token text ≡ true }
        ensures { result ≡ text }
    {
        RequestMethod { text }
    }

    pub(crate) fn copy(&self) -> M<RequestMethod>
        ensures { IfOk result (λ m. m ≡ self.now) }
    {
        let text = self.text.copy()?;
        Ok(RequestMethod { text })
    }

    pub fn as_bytes(&self) -> &[u8]
        ensures value { result.now ≡ self.now }
        ensures is_token { is_token result.now ≡ true }
    {
        self.text.as_bytes()
    }
}

/// The target of a request: visible characters, those past ASCII in UTF-8 (RFC 9112, 3.2, and `httparse`).
#[derive(Drop)]
pub struct RequestTarget {
    text: Text,
}

impl Model for RequestTarget {
    ghost use Rattle.std.specs.Prelude.{ℕ, List};
    ghost use Rattle.http_heads.specs.Lines.{IsTarget};

    ghost Value = { List ℕ };

    ghost view = { λ t. t.text };

    ghost invariant = { λ t. IsTarget t.text };
}

// Whether it is one visible character of ASCII or more.
fn is_visible(bytes: &[u8]) -> bool
    ensures { result ≡ is_visible_target bytes.now }
{
    !bytes.is_empty() && bytes.iter().all(|byte| byte.is_ascii_graphic())
}

impl RequestTarget {
    /// The target of one visible character of ASCII or more; none where the text isn't that.
    pub fn new(text: Text) -> Option<RequestTarget>
        ensures { result ≡ target_made text }
    {
        if is_visible(text.as_bytes()) {
            return Some(RequestTarget { text });
        }
        None
    }

    pub(crate) fn read(text: Text) -> RequestTarget
        requires { IsTarget text }
        ensures { result ≡ text }
    {
        RequestTarget { text }
    }

    pub(crate) fn copy(&self) -> M<RequestTarget>
        ensures { IfOk result (λ t. t ≡ self.now) }
    {
        let text = self.text.copy()?;
        Ok(RequestTarget { text })
    }

    pub fn as_bytes(&self) -> &[u8]
        ensures value { result.now ≡ self.now }
        ensures is_target { IsTarget result.now }
    {
        self.text.as_bytes()
    }
}

/// The status code of a response: RFC 9112, 4, three digits.
#[derive(Drop)]
pub struct StatusCode {
    code: u16,
}

impl Model for StatusCode {
    ghost use Rattle.std.specs.Prelude.{ℕ, ◌<◌};

    ghost Value = { ℕ };

    ghost view = { λ s. s.code };

    ghost invariant = { λ s. s.code < 1000 };
}

impl StatusCode {
    pub fn new(code: u16) -> StatusCode
        requires { code < 1000 }
        ensures { result ≡ code }
    {
        StatusCode { code }
    }

    pub fn code(&self) -> u16
        ensures value { result ≡ self.now }
        ensures three_digits { result < 1000 }
    {
        self.code
    }
}

/// The reason phrase of a response, which may be empty: RFC 9112, 4.
#[derive(Drop)]
pub struct Reason {
    text: Text,
}

impl Model for Reason {
    ghost use Rattle.std.specs.Prelude.{◌≡◌, ℕ, List, true};
    ghost use Rattle.std.specs.List.{list_all};
    ghost use Rattle.httparse.specs.Grammar.{is_value_byte};

    ghost Value = { List ℕ };

    ghost view = { λ r. r.text };

    ghost invariant = { λ r. list_all is_value_byte r.text ≡ true };
}

impl Reason {
    pub(crate) fn new(text: Text) -> Reason
        requires { list_all is_value_byte text ≡ true }
        ensures { result ≡ text }
    {
        Reason { text }
    }

    pub fn as_bytes(&self) -> &[u8]
        ensures value { result.now ≡ self.now }
        ensures is_reason { list_all is_value_byte result.now ≡ true }
    {
        self.text.as_bytes()
    }
}
