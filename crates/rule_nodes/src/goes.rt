// What a loop does after the end of its body.

ghost use Rattle.std.specs.Prelude.{◌≡◌};
ghost use Rattle.rule_nodes.specs.Goes.{body_goes, next_goes};

use rule_model::Code;

/// Whether a loop goes on, is over, or ends with the code of its body.
#[derive(Clone, Copy, PartialEq, Eq)]
pub enum Goes {
    On,
    Over,
    Ends,
}

/// What a loop does after its body: `continue` ends the body early, and `break` ends the loop.
pub fn after_body(code: &Code) -> Goes
    ensures { result ≡ body_goes code.now }
{
    match code {
        Code::Value(_) | Code::Continue => Goes::On,
        Code::Break => Goes::Over,
        Code::Raised(_) | Code::Return(_) => Goes::Ends,
    }
}

/// What it does after what comes behind the body of a `for`, where `break` alone is taken.
pub fn after_next(code: &Code) -> Goes
    ensures { result ≡ next_goes code.now }
{
    match code {
        Code::Value(_) => Goes::On,
        Code::Break => Goes::Over,
        Code::Raised(_) | Code::Return(_) | Code::Continue => Goes::Ends,
    }
}
