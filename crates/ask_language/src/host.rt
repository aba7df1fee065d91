// A host without commands of its own.

ghost use Rattle.std.specs.Prelude.{◌≡◌};
ghost use Rattle.ask_language.specs.Host.{name_of, no_commands};

use plain_eval::PlainHost;
use px_bytes::{HostAnswer, TclFault, Texts};
use std::alloc::Global;

#[derive(Drop)]
pub struct NoHost {}

impl PlainHost for NoHost {
    type Env = ();

    ghost table = { no_commands };

    fn call(&mut self, alloc: Global, _env: &(), words: &Texts) -> HostAnswer {
        match TclFault::no_command(alloc, name_of(words)) {
            Ok(fault) => HostAnswer::Fault(fault),
            Err(_) => HostAnswer::Memory,
        }
    }
}

fn name_of(words: &Texts) -> &[u8]
    ensures { result.now ≡ name_of words.now }
{
    match words.as_slice() {
        [name, ..] => name.as_bytes(),
        [] => b"",
    }
}
