// The files of this machine. Nothing is told of their contents.

ghost use Rattle.std.specs.Prelude.{◌≡◌, None};

use px_bytes::Text;
use px_outside::{Failed, Files};
use std::alloc::Global;
use std::fs::File;
use std::io::{self, ErrorKind, Read};
use std::rt;

/// The most bytes of a file.
const FILE_LIMIT: u64 = 1_073_741_824;

/// The files of this machine, by their paths.
#[derive(Drop)]
pub struct RealFiles<R: rt::Files + Drop> {
    rt: R,
    faults: u64,
}

impl<R: rt::Files + Drop> RealFiles<R> {
    pub fn new(rt: R) -> RealFiles<R>
        ensures { result.faults ≡ 0 }
    {
        RealFiles { rt, faults: 0 }
    }

    fn contents(&self, alloc: Global, name: &[u8]) -> io::Result<Vec<u8>> {
        let Ok(name) = std::str::from_utf8(name) else {
            return Err(io::Error::from(ErrorKind::InvalidInput));
        };
        let file = File::open(&self.rt, name)?;
        let mut bytes = Vec::new(alloc);
        let count = file.take(FILE_LIMIT + 1).read_to_end(&mut bytes)?;
        if count as u64 > FILE_LIMIT {
            return Err(io::Error::from(ErrorKind::InvalidData));
        }
        Ok(bytes)
    }
}

impl<R: rt::Files + Drop> Files for RealFiles<R> {
    ghost told = { λ files name. None };

    ghost faults = { λ files. files.faults };

    fn read(&mut self, alloc: Global, name: &[u8]) -> Result<Text, Failed> {
        match self.contents(alloc, name) {
            Ok(bytes) => Ok(Text::from_vec(bytes)),
            Err(error) if error.kind() == ErrorKind::OutOfMemory => Err(Failed::Memory),
            Err(_) => {
                self.faults = self.faults.saturating_add(1);
                Err(Failed::Failed)
            }
        }
    }
}
