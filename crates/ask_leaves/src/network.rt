// The calls of network commands: an event, a kind of virtual server, and calls with `;` between.

mod directive;
mod place;
mod scene;
mod show;
mod words;

use event_order::{EventName, read_event};
use questions::Question;
use scene::Scene;

pub fn answer(question: &mut Question<'_>) {
    match read_event(question.word().as_bytes()) {
        Some(event) => answer_event(question, event),
        None => question.unknown(),
    }
}

fn answer_event(question: &mut Question<'_>, event: EventName) {
    let kind = question.word();
    let calls = question.rest();
    let mut scene = Scene::new(question, event, kind);
    scene.answer_calls(question, calls);
}
