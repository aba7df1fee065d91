use super::side::Tried;
use px_outside::{Net, ReadAnswer, WriteAnswer};

/// How many bytes go each way: more than the system holds, so that writes are short.
const LENGTH: usize = 16 << 20;

/// One way of a connection: what was sent and what came of the same bytes.
#[derive(Clone, Copy)]
struct Way {
    from: u32,
    to: u32,
    sent: usize,
    came: usize,
    short: bool,
}

impl Way {
    fn new(from: u32, to: u32) -> Way {
        Way {
            from,
            to,
            sent: 0,
            came: 0,
            short: false,
        }
    }

    fn send(&mut self, tried: &mut Tried, bytes: &[u8]) {
        if self.sent < bytes.len() {
            let left = &bytes[self.sent..];
            if let WriteAnswer::Took(n) = tried.net.write(self.from, left) {
                self.short = self.short || n < left.len();
                self.sent += n;
            }
        }
    }

    // Whether what came is what was sent.
    fn hear(&mut self, tried: &mut Tried, bytes: &[u8], room: &mut [u8; 16_000]) -> bool {
        for _ in 0..64 {
            let ReadAnswer::Got(n) = tried.net.read(self.to, room) else {
                return true;
            };
            if self.came > bytes.len() || !bytes[self.came..].starts_with(&room[..n]) {
                return false;
            }
            self.came = self.came.saturating_add(n);
        }
        true
    }
}

/// Whether all of many bytes come both ways, of which not all can be written at once.
pub fn exchanges(rt: &HostRuntime, tried: &mut Tried) -> bool {
    match Vec::from_elem(rt.alloc(), 0u8, LENGTH) {
        Ok(mut bytes) => {
            number(&mut bytes);
            tried.joins() && both_come(tried, &bytes)
        }
        Err(_) => false,
    }
}

fn number(bytes: &mut [u8]) {
    for (place, byte) in bytes.iter_mut().enumerate() {
        *byte = (place % 251) as u8;
    }
}

// Sends the same bytes both ways until they have come.
fn both_come(tried: &mut Tried, bytes: &[u8]) -> bool {
    let mut there = Way::new(tried.near, tried.far);
    let mut back = Way::new(tried.far, tried.near);
    let mut room = [0u8; 16_000];
    for _ in 0..2_000 {
        there.send(tried, bytes);
        back.send(tried, bytes);
        if !there.hear(tried, bytes, &mut room) || !back.hear(tried, bytes, &mut room) {
            return false;
        }
        if there.came == LENGTH && back.came == LENGTH {
            return there.short && back.short;
        }
        tried.wait();
    }
    false
}
