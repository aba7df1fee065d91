// Texts that stand there twice, and names of what isn't there.

ghost use Rattle.std.specs.Prelude.{◌≡◌, OnOk};
ghost use Rattle.std.specs.Option.{option_copied};
ghost use Rattle.toml.specs.View.{table_view};
ghost use Rattle.config.specs.Faults.{after_faults};
ghost use Rattle.config.specs.Names.{missing, once_faults, there_faults, twice};
ghost use Rattle.config.specs.Keys.{key_view};
ghost use Rattle.config.specs.Places.{place_text};
ghost use Rattle.config.specs.Tables.{faults_of};
ghost use Rattle.config.specs.Texts.{place_of, text_at};

use crate::fault::ConfigFaultKind;
use crate::index::Index;
use crate::key::Key;
use crate::place::Place;
use crate::table::text_at;
use crate::told::Told;
use px_bytes::M;
use toml::Table;

/// What is wrong with the text of the item at this place, among those of its array.
pub(crate) fn twice(index: &Index, at: usize, text: Option<&str>) -> Option<ConfigFaultKind>
    ensures { result ≡ twice (place_of index.now) at (option_copied text.entry) }
{
    match index.find(text?.as_bytes()) {
        Some(first) if first == at => None,
        _ => Some(ConfigFaultKind::Twice),
    }
}

/// What is wrong with a text that names something there.
pub(crate) fn missing(index: &Index, text: Option<&str>) -> Option<ConfigFaultKind>
    ensures { result ≡ missing (place_of index.now) (option_copied text.entry) }
{
    match index.find(text?.as_bytes()) {
        Some(_) => None,
        None => Some(ConfigFaultKind::NoSuch),
    }
}

impl Told {
    /// Keeps what is wrong at a place, if something is.
    pub(crate) fn note_if(&mut self, kind: Option<ConfigFaultKind>, place: Place<'_>) -> M<()>
        ensures { OnOk result (self.new
            ≡ after_faults (faults_of (place_text place.entry) kind) self.old) }
    {
        match kind {
            Some(kind) => self.note(kind, place),
            None => Ok(()),
        }
    }

    /// Looks whether the text at a key of the item at this place stands there for the first time.
    pub(crate) fn once(
        &mut self,
        index: &Index,
        at: usize,
        prefix: &str,
        key: &Key,
        table: &Table,
    ) -> M<()>
        ensures { OnOk result (self.new ≡ after_faults (once_faults (place_of index.now) at
            prefix.now (key_view key.now) (table_view table.now)) self.old) }
    {
        let place = Place {
            prefix,
            key: key.name,
            item: None,
        };
        self.note_if(twice(index, at, text_at(table, key.name)), place)
    }

    /// Looks whether the text at a key names something there.
    pub(crate) fn there(&mut self, index: &Index, prefix: &str, key: &Key, table: &Table) -> M<()>
        ensures { OnOk result (self.new ≡ after_faults (there_faults (place_of index.now) prefix.now
            (key_view key.now) (table_view table.now)) self.old) }
    {
        let place = Place {
            prefix,
            key: key.name,
            item: None,
        };
        self.note_if(missing(index, text_at(table, key.name)), place)
    }
}
