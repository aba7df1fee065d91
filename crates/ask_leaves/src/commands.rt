// The calls of HTTP commands: a request, perhaps its response, and steps with `/` between: an event, or a
// command in the event before it.

mod left;
mod received;
mod scene;

use questions::Question;
use scene::HttpScene;

pub fn answer(question: &mut Question<'_>, call: &str) {
    let number = question.number(9_223_372_036_854_775_807);
    let request = question.text();
    let response = question.text();
    let mut scene = HttpScene::new(question, number, &request, response);
    for step in question.rest().split(|word| *word == "/") {
        scene.answer_step(question, step);
    }
    scene.say_end(question, call == "http_detach");
}
