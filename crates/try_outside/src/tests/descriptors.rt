use super::side::{Tried, peer};
use px_outside::{Accepted, Failed, Net};
use std::alloc::AllocError;
use std::fs::File;

/// The most descriptors that are used up. Where a process may have more, nothing is tried.
const MOST: u32 = 70_000;

/// Whether two peers are taken, although descriptors run out before.
pub fn run_out(rt: &HostRuntime, tried: &mut Tried) -> bool {
    match (peer(rt, tried.port), peer(rt, tried.port)) {
        (Ok(_first), Ok(_second)) => both_are_taken(rt, tried),
        _ => false,
    }
}

// The listener is listed again once there are descriptors.
fn both_are_taken(rt: &HostRuntime, tried: &mut Tried) -> bool {
    let mut files = Vec::new(rt.alloc());
    let one = match use_up(rt, &mut files) {
        Ok(true) => one_comes_back(tried, &mut files),
        Ok(false) => true,
        Err(_) => false,
    };
    drop(files);
    tried.wait();
    one && tried.listed.len() > 0 && tried.accepted() > 0
}

// Opens files until no descriptor is left, and says whether it came to that.
fn use_up(rt: &HostRuntime, files: &mut Vec<File>) -> Result<bool, AllocError> {
    for _ in 0..MOST {
        match File::open(rt, "/dev/null") {
            Ok(file) => files.push(file)?,
            Err(_) => return Ok(true),
        }
    }
    Ok(false)
}

// A connect is refused, and an accept fails where no link could give a descriptor back. The one
// that comes back serves one peer.
fn one_comes_back(tried: &mut Tried, files: &mut Vec<File>) -> bool {
    let refused = tried.is_refused(tried.port);
    tried.wait();
    let none = tried.net.accept(0) == Err(Failed::Failed);
    drop(files.pop());
    let one = tried.accepted() > 0;
    let full = tried.net.accept(0) == Ok(Accepted::NotYet);
    refused && none && one && full
}
