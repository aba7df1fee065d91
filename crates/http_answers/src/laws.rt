// What holds of answers.

ghost use Rattle.http_answers.specs.Laws.{AnswersAreRead};
ghost use Rattle.http_answers.specs.Refusals.{RefusalsAreAnswers};

/// The law that what is sent of an answer is a response's head, which is read back, and a content of the
/// length that the head tells to who asked.
pub fn answers_are_read()
    ensures { AnswersAreRead }
{}

/// The law that a refusal is such an answer, of at most 128 bytes.
pub fn refusals_are_answers()
    ensures { RefusalsAreAnswers }
{}
