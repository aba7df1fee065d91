// Heads as rules see them.

ghost use Rattle.std.specs.Prelude.{◌≡◌, ◌<◌, ◌≤◌, ◌++◌, ◌∷◌, [], IfOk, OnOk, codes, drop, filter};
ghost use Rattle.std.specs.Prelude.{length, true};
ghost use Rattle.http_heads.specs.Fields.{is_value};
ghost use Rattle.http_heads.specs.Hosts.{is_authority, is_host};
ghost use Rattle.http_heads.specs.Passed.{is_kept};
ghost use Rattle.http_heads.specs.Reading.{IsTold};
ghost use Rattle.http_heads.specs.Received.{Becomes, PutsHost, apart, hosted, kept, received_request};
ghost use Rattle.http_heads.specs.Received.{received_response, value_set};
ghost use Rattle.http_heads.specs.Targets.{authority_of};

use crate::edits::MOST_FIELDS;
use crate::fault::HeadFault;
use crate::fields::Fields;
use crate::host::host_fits;
use crate::line::RequestTarget;
use crate::passed::is_kept;
use crate::request::RequestHead;
use crate::response::ResponseHead;
use crate::target::{authority_at, authority_length, path_of};
use px_bytes::{HttpFault, M, Text};
use std::alloc::Global;

impl Fields {
    fn drop_options(&mut self, connection: &[Text])
        ensures { self.new ≡ filter (λ f. is_kept connection.now f.0) self.old }
    {
        self.list
            .retain(|field| is_kept(connection, field.0.as_bytes()));
    }

    // Takes away what the Connection fields name.
    fn keep(&mut self, alloc: Global) -> M<()>
        ensures { OnOk result (self.new ≡ kept self.old) }
    {
        let connection = self.values(alloc, b"connection")?;
        self.drop_options(connection.as_slice());
        Ok(())
    }

    // Puts another value into the field at a place.
    fn set_value(&mut self, at: usize, value: Text)
        requires inside { at < length self.old }
        requires is_value { is_value value ≡ true }
        ensures { self.new ≡ value_set self.old at value }
    {
        self.list[at].1 = value;
    }

    fn add_host(&mut self, alloc: Global, authority: &[u8]) -> M<()>
        requires few { length self.old < 100 }
        requires is_host { is_host authority.now ≡ true }
        ensures { OnOk result (self.new ≡ self.old ++ (codes "Host", authority.now) ∷ []) }
    {
        let name = Text::new(alloc, b"Host")?;
        let value = Text::new(alloc, authority)?;
        self.list.push((name, value))?;
        Ok(())
    }

    // Gives the Host field a value, or adds one; a bad head where there are too many for that.
    fn put_host(&mut self, alloc: Global, authority: &[u8]) -> Result<(), HeadFault>
        requires { is_host authority.now ≡ true }
        ensures { PutsHost result (hosted authority.now self.old) self.new }
    {
        if let Some(at) = self.last_place(b"host") {
            let value = Text::new(alloc, authority)?;
            self.set_value(at, value);
            return Ok(());
        }
        if self.list.len() >= MOST_FIELDS {
            return Err(HeadFault::Fault(HttpFault::BadHead));
        }
        Ok(self.add_host(alloc, authority)?)
    }
}

// Takes apart a target whose authority begins at a place.
fn take_apart(alloc: Global, head: &mut RequestHead, from: usize) -> Result<(), HeadFault>
    requires inside { from ≤ length head.old.target }
    requires good { is_authority (authority_of (drop from head.old.target)) ≡ true }
    ensures { Becomes result (apart from head.old) head.new }
{
    let text = &head.target.as_bytes()[from..];
    let (authority, rest) = text.split_at(authority_length(text));
    let path = path_of(alloc, head.method.as_bytes(), rest)?;
    head.fields.put_host(alloc, authority)?;
    head.target = RequestTarget::read(path);
    Ok(())
}

fn receive(alloc: Global, head: &mut RequestHead) -> Result<(), HeadFault>
    ensures { Becomes result (received_request head.old) head.new }
{
    let at = match authority_at(head.method.as_bytes(), head.target.as_bytes()) {
        Ok(at) => at,
        Err(fault) => return Err(HeadFault::Fault(fault)),
    };
    if !host_fits(head.version, &head.fields) {
        return Err(HeadFault::Fault(HttpFault::Host));
    }
    head.fields.keep(alloc)?;
    match at {
        Some(from) => take_apart(alloc, head, from),
        None => Ok(()),
    }
}

/// The head of a request as rules see it, of one as it came: without what its Connection fields
/// name, and with its target as a server gets it, whose authority is the Host. A bad head where an
/// absolute target has another scheme than `http` and `https` or no authority that a Host could be,
/// and the fault Host where there are more of these fields than one, none in a request of 1.1, or
/// one with another byte.
pub fn received_request(alloc: Global, mut head: RequestHead) -> Result<RequestHead, HeadFault>
    ensures { IsTold result (received_request head) }
{
    match receive(alloc, &mut head) {
        Ok(()) => Ok(head),
        Err(why) => Err(why),
    }
}

/// The head of a response as rules see it, of one as it came.
pub fn received_response(alloc: Global, mut head: ResponseHead) -> M<ResponseHead>
    ensures { IfOk result (λ r. r ≡ received_response head) }
{
    match head.fields.keep(alloc) {
        Ok(()) => Ok(head),
        Err(why) => Err(why),
    }
}
