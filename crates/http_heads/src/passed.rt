// A head as it is sent on.

ghost use Rattle.std.specs.Prelude.{◌≡◌, codes, filter};
ghost use Rattle.http_heads.specs.Passed.{first_alone, goes_on, has_option, is_kept, is_of_connection};
ghost use Rattle.http_heads.specs.Passed.{is_of_message, is_option, passed, passed_request};
ghost use Rattle.http_heads.specs.Passed.{passed_response, unframed};

use crate::fields::{Fields, is_named};
use crate::request::RequestHead;
use crate::response::ResponseHead;
use px_bytes::{Text, same_name, trimmed};

// Whether a name is an option of a Connection field.
fn has_option(name: &[u8], value: &[u8]) -> bool
    ensures { result ≡ has_option name.now value.now }
{
    value
        .split(|byte| *byte == b',')
        .any(|option| same_name(trimmed(option), name))
}

fn is_option(name: &[u8], connection: &[Text]) -> bool
    ensures { result ≡ is_option name.now connection.now }
{
    connection
        .iter()
        .any(|value| has_option(name, value.as_bytes()))
}

// Whether fields of a name speak of one connection alone.
fn is_of_connection(name: &[u8]) -> bool
    ensures { result ≡ is_of_connection name.now }
{
    same_name(name, b"connection")
        || same_name(name, b"keep-alive")
        || same_name(name, b"proxy-connection")
        || same_name(name, b"te")
        || same_name(name, b"upgrade")
}

// Whether fields of a name are sent on though they are named.
fn is_of_message(name: &[u8]) -> bool
    ensures { result ≡ is_of_message name.now }
{
    same_name(name, b"host")
        || same_name(name, b"cookie")
        || same_name(name, b"content-length")
        || same_name(name, b"transfer-encoding")
}

/// Whether fields of a name stay, by the values of the Connection fields.
pub(crate) fn is_kept(connection: &[Text], name: &[u8]) -> bool
    ensures { result ≡ is_kept connection.now name.now }
{
    is_of_message(name) || !is_option(name, connection)
}

pub(crate) fn goes_on(connection: &[Text], name: &[u8]) -> bool
    ensures { result ≡ goes_on connection.now name.now }
{
    !is_of_connection(name) && is_kept(connection, name)
}

impl Fields {
    fn drop_of_connection(&mut self, connection: &[Text])
        ensures { self.new ≡ filter (λ f. goes_on connection.now f.0) self.old }
    {
        self.list
            .retain(|field| goes_on(connection, field.0.as_bytes()));
    }

    // Takes all fields of a name away but the first.
    fn keep_first(&mut self, name: &[u8])
        ensures { self.new ≡ first_alone name.now self.old }
    {
        let mut at = 0;
        let mut seen = false;
        while at < self.list.len() {
            let named = is_named(name, &self.list[at]);
            if named && seen {
                let _ = self.list.remove(at);
            } else {
                seen = seen || named;
                at += 1;
            }
        }
    }

    // Takes away what says how long the body of a response is that has none.
    fn drop_framing(&mut self, status: u16)
        ensures { self.new ≡ unframed status self.old }
    {
        if status < 200 || status == 204 {
            self.drop_named(b"content-length");
            self.drop_named(b"transfer-encoding");
        } else if status == 304 {
            self.drop_named(b"transfer-encoding");
        }
    }

    fn pass(&mut self, connection: &[Text])
        ensures { self.new ≡ passed connection.now self.old }
    {
        self.drop_of_connection(connection);
        self.keep_first(b"content-length");
    }
}

/// The head of a request as it is sent on, by the values of the Connection fields that came with
/// it: without the fields that speak of the connection on which it came, and without `Expect`; a
/// length once.
pub fn passed_request(mut head: RequestHead, connection: &[Text]) -> RequestHead
    ensures { result ≡ passed_request head connection.now }
{
    head.fields.drop_named(b"expect");
    head.fields.pass(connection);
    head
}

/// The head of a response as it is sent on, by the values of the Connection fields that came with
/// it; without a length and a coding where its status has none.
pub fn passed_response(mut head: ResponseHead, connection: &[Text]) -> ResponseHead
    ensures { result ≡ passed_response head connection.now }
{
    let status = head.status.code();
    head.fields.drop_framing(status);
    head.fields.pass(connection);
    head
}
