// What a node does next.

ghost use Rattle.std.specs.Prelude.{◌≡◌};
ghost use Rattle.frames.specs.Moves.{back_under, child_under, stop};

use crate::frame::{Frame, Mode};
use rule_model::Code;

/// What a node does next: at most one frame more, and then a child begins, or a code goes on.
#[derive(Drop)]
pub struct Next {
    pub frame: Option<Frame>,
    pub mode: Mode,
}

impl Next {
    /// The node is done.
    #[inline(always)]
    pub fn stop(code: Code) -> Next
        ensures { result ≡ stop code }
    {
        Next {
            frame: None,
            mode: Mode::Back(code),
        }
    }

    /// A child begins.
    #[inline(always)]
    pub fn child(frame: Frame) -> Next
        ensures { result ≡ child_under frame }
    {
        Next {
            frame: Some(frame),
            mode: Mode::Begin,
        }
    }

    /// A child is done.
    #[inline(always)]
    pub fn back(frame: Frame, code: Code) -> Next
        ensures { result ≡ back_under frame code }
    {
        Next {
            frame: Some(frame),
            mode: Mode::Back(code),
        }
    }
}
