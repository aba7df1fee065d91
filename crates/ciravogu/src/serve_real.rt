// `serve` over the real files, sockets and clock.

use proxy::{Status, serve_command};
use px_bytes::{Text, Texts};
use px_outside::Sink;
use px_real::{FileSink, MioNet, NoSink, RealClock, RealFiles};

/// The status where the file of the journal can't be made.
const NO_JOURNAL: u8 = 6;

/// The status where no memory is found for the net.
const NO_MEMORY: u8 = 7;

/// Makes the real objects, and serves what the words say, with a journal of this name.
pub fn serve_real(rt: &HostRuntime, words: &Texts, journal: Option<Text>) -> Status {
    let clock = RealClock::new(*rt);
    let beside = clock.beside(*rt);
    match MioNet::new(rt.alloc(), *rt, beside) {
        Ok(net) => {
            let mut outside = Outside { net, clock };
            let status = outside.serve_named(rt, words, journal);
            drop(outside);
            status
        }
        Err(_) => {
            drop(clock);
            drop(journal);
            Status(NO_MEMORY)
        }
    }
}

/// The sockets and the clock.
#[derive(Drop)]
struct Outside {
    net: MioNet<HostRuntime>,
    clock: RealClock<HostRuntime>,
}

impl Outside {
    fn serve_named(&mut self, rt: &HostRuntime, words: &Texts, journal: Option<Text>) -> Status {
        let Some(name) = journal else {
            return self.serve(rt, words, &mut NoSink);
        };
        let made = FileSink::create(rt, name.as_bytes());
        drop(name);
        match made {
            Ok(mut journal) => {
                let status = self.serve(rt, words, &mut journal);
                drop(journal);
                status
            }
            Err(_) => Status(NO_JOURNAL),
        }
    }

    fn serve<K: Sink>(&mut self, rt: &HostRuntime, words: &Texts, journal: &mut K) -> Status {
        let mut files = RealFiles::new(*rt);
        let (net, clock) = (&mut self.net, &mut self.clock);
        let status = serve_command(rt.alloc(), words, &mut files, net, clock, journal);
        drop(files);
        status
    }
}
