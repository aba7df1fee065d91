// The texts of places.

ghost use Rattle.std.specs.Prelude.{◌≡◌, IfOk, string_bytes};
ghost use Rattle.config.specs.Places.{prefix_of};
ghost use Rattle.pool_monitor.specs.Documents.{place_text};

use px_bytes::{M, Text};
use std::alloc::Global;

/// A key of the table that stands at the prefix, or an item of the array there.
#[derive(Clone, Copy)]
pub(crate) struct Place<'a> {
    pub prefix: &'a str,
    pub key: &'a str,
    pub item: Option<usize>,
}

impl Place<'_> {
    fn spelled(self, alloc: Global) -> M<String>
        ensures { IfOk result (λ s. string_bytes s ≡ place_text self.entry) }
    {
        let prefix = self.prefix;
        let key = self.key;
        match self.item {
            Some(at) => Ok(format!(in alloc; "{prefix}{key}[{at}]")?),
            None => Ok(format!(in alloc; "{prefix}{key}")?),
        }
    }

    pub(crate) fn text(self, alloc: Global) -> M<Text>
        ensures { IfOk result (λ t. t ≡ place_text self.entry) }
    {
        let spelled = self.spelled(alloc)?;
        Ok(Text::from_vec(spelled.into_bytes()))
    }

    /// The prefix of the keys of a table that stands here.
    pub(crate) fn inside(self, alloc: Global) -> M<String>
        ensures { IfOk result (λ s. string_bytes s ≡ prefix_of (place_text self.entry)) }
    {
        let mut spelled = self.spelled(alloc)?;
        spelled.push('.')?;
        Ok(spelled)
    }
}
