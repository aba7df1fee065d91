// `test` over the real files.

use proxy::Status;
use px_bytes::{Text, Texts};
use px_outside::Sink;
use px_real::{FileSink, NoSink, RealFiles, StdoutSink};
use rule_tests::test_command;
use test_words::words_of;

/// The status where the file of the schedule can't be made.
const NO_SCHEDULE: u8 = 6;

/// The status where no memory is found for the words.
const NO_MEMORY: u8 = 7;

/// Tests what the words say.
pub fn test_real(rt: &HostRuntime, words: &Texts) -> Status {
    match words_of(rt.alloc(), words.as_slice()) {
        Ok(Some(said)) => {
            let status = test_named(rt, words, said.schedule.as_ref());
            drop(said);
            status
        }
        Ok(None) => test(rt, words, &mut NoSink),
        Err(_) => Status(NO_MEMORY),
    }
}

// With a schedule of this name.
fn test_named(rt: &HostRuntime, words: &Texts, schedule: Option<&Text>) -> Status {
    let Some(name) = schedule else {
        return test(rt, words, &mut NoSink);
    };
    match FileSink::create(rt, name.as_bytes()) {
        Ok(mut sink) => {
            let status = test(rt, words, &mut sink);
            drop(sink);
            status
        }
        Err(_) => Status(NO_SCHEDULE),
    }
}

fn test<S: Sink>(rt: &HostRuntime, words: &Texts, schedule: &mut S) -> Status {
    let mut files = RealFiles::new(*rt);
    let mut out = StdoutSink::new(*rt);
    let status = test_command(rt.alloc(), words, &mut files, &mut out, schedule);
    drop(files);
    drop(out);
    status
}
