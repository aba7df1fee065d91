// What a question says of the state beside commands.

use crate::network::scene::Scene;
use crate::network::show::{say_choice, say_sides, say_wishes};
use crate::network::words::read_word;
use event_order::read_event;
use irule_net::Selected;
use px_bytes::{Side, read_addr, read_decimal};
use questions::Question;

/// `wishes`, `choice` and `sides` show the state. Of the others `event NAME` begins the next event,
/// `server` alone says that there is one, `selected POOL ADDR:PORT` that it was selected, `client
/// TEXT` and `server TEXT` give bytes that are held, and `reselects N` a number.
pub fn directed(scene: &mut Scene, question: &mut Question<'_>, name: &str, words: &[&str]) {
    match words {
        [] => show(scene, question, name),
        [word] => change(scene, question, name, word),
        [pool, addr, ..] => select(scene, question, pool, addr),
    }
}

fn show(scene: &mut Scene, question: &mut Question<'_>, name: &str) {
    match name {
        "wishes" => say_wishes(question, &scene.state),
        "choice" => say_choice(question, &scene.state),
        "sides" => say_sides(question, &scene.state),
        _ => scene.state.relays = true,
    }
}

fn change(scene: &mut Scene, question: &mut Question<'_>, name: &str, word: &str) {
    match name {
        "event" => begin(scene, word),
        "server" => scene
            .state
            .set_held(Side::Server, read_word(question, word)),
        "client" => scene
            .state
            .set_held(Side::Client, read_word(question, word)),
        _ => count(scene, word),
    }
}

fn select(scene: &mut Scene, question: &mut Question<'_>, pool: &str, addr: &str) {
    if let Some(addr) = read_addr(addr.as_bytes()) {
        let pool = read_word(question, pool);
        scene.state.selected = Some(Selected { pool, addr });
    }
}

fn begin(scene: &mut Scene, event: &str) {
    if let Some(event) = read_event(event.as_bytes()) {
        scene.event = event;
        scene.state.begin();
    }
}

fn count(scene: &mut Scene, word: &str) {
    if let Some(count) = read_decimal(word.as_bytes(), 100) {
        scene.state.reselects = count as u32;
    }
}
