// The commands that read and write the second text.

ghost use Rattle.std.specs.Prelude.{◌≡◌, IfOk};
ghost use Rattle.config.specs.Faults.{number_of};
ghost use Rattle.proxy.specs.Report.{second_config};
ghost use Rattle.proxy.specs.SecondText.{ExportsConfig, ExportsFile, ImportsFile, ImportsText};
ghost use Rattle.proxy.specs.SecondText.{IsLineOf, IsRuleLine, TellsRead};
ghost use Rattle.proxy.specs.declared.end.End.TheVariants.{SecondText};

use crate::end::End;
use crate::mirror_command::tell_made;
use crate::offline_commands::{read_end, refuse, tell};
use crate::report::{second_config_line, second_place_line, second_rule_line};
use config::{ConfigFault, LoadedConfig, read_config};
use px_bytes::{M, Memory, Text};
use px_outside::{Files, Sink};
use std::alloc::Global;
use tmsh_text::{PrintFault, TmshFault, print_tmsh, tmsh_table};
use toml_text::table_text;

/// Writes the document of a second text, or says why it is no configuration.
pub fn import<F: Files, K: Sink>(alloc: Global, name: &[u8], files: &mut F, out: &mut K) -> End
    ensures { ImportsFile name.now (F.told files.old) (K.written out.old) (K.written out.new)
        (F.faults files.old) (F.faults files.new) (K.faults out.old) (K.faults out.new) result }
{
    match files.read(alloc, name) {
        Ok(text) => import_text(alloc, text.as_bytes(), files, out),
        Err(failed) => read_end(failed),
    }
}

fn import_text<F: Files, K: Sink>(alloc: Global, text: &[u8], files: &mut F, out: &mut K) -> End
    ensures { ImportsText (F.told files.old) (F.faults files.old) (F.faults files.new) text.now
        (K.written out.old) (K.written out.new) (K.faults out.old) (K.faults out.new) result }
{
    match tmsh_table(alloc, files, text) {
        Ok(table) => tell_made(End::Done, table_text(alloc, &table), out),
        Err(why) => refuse_text(alloc, &why, out),
    }
}

// Says why a text is no configuration.
fn refuse_text<K: Sink>(alloc: Global, why: &TmshFault, out: &mut K) -> End
    ensures { TellsRead why.now (K.written out.old) (K.written out.new) (K.faults out.old)
        (K.faults out.new) result }
{
    tell_made(End::SecondText, fault_line(alloc, why), out)
}

// The line of a fault of a text.
fn fault_line(alloc: Global, why: &TmshFault) -> M<Text>
    ensures { IfOk result (λ line. IsLineOf why.now line SecondText) }
{
    match why {
        TmshFault::NotUtf8(at) => second_place_line(alloc, 1, *at),
        TmshFault::Form(at) => second_place_line(alloc, 2, *at),
        TmshFault::Config(fault) => config_line(alloc, fault),
        TmshFault::Memory => Err(Memory),
    }
}

fn config_line(alloc: Global, fault: &ConfigFault) -> M<Text>
    ensures { IfOk result (λ line. line ≡ second_config (number_of fault.now.kind) fault.now.place) }
{
    second_config_line(alloc, fault.kind.number(), fault.place.as_bytes())
}

/// Writes the second text of a configuration, or says why it doesn't load or has none.
pub fn export<F: Files, K: Sink>(alloc: Global, name: &[u8], files: &mut F, out: &mut K) -> End
    ensures { ExportsFile name.now (F.told files.old) (K.written out.old) (K.written out.new)
        (F.faults files.old) (F.faults files.new) (K.faults out.old) (K.faults out.new) result }
{
    match read_config(alloc, files, name) {
        Ok(loaded) => export_config(alloc, &loaded, out),
        Err(why) => refuse(alloc, why, out),
    }
}

fn export_config<K: Sink>(alloc: Global, config: &LoadedConfig, out: &mut K) -> End
    ensures { ExportsConfig config.now (K.written out.old) (K.written out.new) (K.faults out.old)
        (K.faults out.new) result }
{
    match print_tmsh(alloc, config) {
        Ok(text) => tell(End::Done, text.as_bytes(), out),
        Err(why) => tell_made(End::SecondText, rule_line(alloc, why), out),
    }
}

// The line of why a configuration has no text.
fn rule_line(alloc: Global, why: PrintFault) -> M<Text>
    ensures { IfOk result (λ line. IsRuleLine why line SecondText) }
{
    match why {
        PrintFault::Unbalanced(rule) => second_rule_line(alloc, 4, rule),
        PrintFault::NotUtf8(rule) => second_rule_line(alloc, 5, rule),
        PrintFault::Memory => Err(Memory),
    }
}
