use super::side::Tried;
use px_outside::{ConnectAnswer, Net, ReadAnswer};

/// Whether the number of each of two hundred links comes at its other end, once all are open.
pub fn names_go_over(tried: &mut Tried) -> bool {
    let mut pairs = [(0, 0); 200];
    for pair in pairs.iter_mut() {
        tried.joins();
        *pair = (tried.near, tried.far);
    }
    let open = tried.net.links() == 400;
    for (near, _) in pairs.iter() {
        if !name_is_sent(tried, *near) {
            return false;
        }
    }
    for (near, far) in pairs.iter() {
        if !name_comes(tried, *near, *far) {
            return false;
        }
    }
    open && tried.net.links() == 0
}

fn name_is_sent(tried: &mut Tried, near: u32) -> bool {
    tried.net.connect_answer(near) == ConnectAnswer::Connected
        && tried.takes(near, &near.to_le_bytes())
}

fn name_comes(tried: &mut Tried, near: u32, far: u32) -> bool {
    let mut room = [0u8; 64];
    let came = tried.read(far, &mut room);
    let is_name = room[..4] == near.to_le_bytes()[..];
    tried.net.close(far);
    let end = tried.read(near, &mut room);
    tried.net.close(near);
    is_name && came == ReadAnswer::Got(4) && end == ReadAnswer::End
}
