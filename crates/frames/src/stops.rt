// The path to the node on which a body stands.

ghost use Rattle.std.specs.Prelude.{length, take, ◌+◌, ◌++◌, ◌≡◌, ◌≤◌};
ghost use Rattle.frames.specs.Frames.{path_of, places};
ghost use Rattle.frames.specs.Stops.{numbers_of};

use crate::frame::Frame;

/// The numbers that a frame has on the path.
#[derive(Clone, Copy)]
enum Numbers {
    None,
    One(usize),
    Two(usize, usize),
}

fn numbers_in(frame: &Frame) -> Numbers
    ensures { numbers_of result ≡ places frame.now }
{
    match frame {
        Frame::Called { .. } | Frame::Read { .. } => Numbers::None,
        Frame::Words { word, part, .. } => Numbers::Two(*word, *part),
        Frame::Script { at, .. } => Numbers::One(*at),
        Frame::Pieces { part, .. } => Numbers::One(*part),
        Frame::Left { at } => Numbers::One(*at),
        Frame::Right { at, .. } => Numbers::One(*at),
        Frame::Condition { place, .. } => Numbers::One(*place),
        Frame::Body { place, .. } => Numbers::One(*place),
        Frame::Each { place, .. } => Numbers::One(*place),
        Frame::Test { .. } => Numbers::One(1),
        Frame::Next { .. } => Numbers::One(2),
        Frame::Turn { .. } => Numbers::One(3),
        Frame::Operand { .. } | Frame::Start | Frame::Caught => Numbers::One(0),
        Frame::CaughtIn { .. } | Frame::Whole => Numbers::One(0),
    }
}

fn count(numbers: Numbers) -> usize
    ensures { result ≡ length (numbers_of numbers) }
{
    match numbers {
        Numbers::None => 0,
        Numbers::One(_) => 1,
        Numbers::Two(_, _) => 2,
    }
}

/// How many numbers the path has.
pub(crate) fn depth(frames: &[Frame]) -> usize
    ensures { result ≡ length (path_of frames.now) }
{
    let mut depth = 0;
    for frame in frames {
        depth += count(numbers_in(frame));
    }
    depth
}

// Writes numbers behind the first `at`, and answers how many there are then.
fn put(numbers: Numbers, at: usize, out: &mut [usize]) -> usize
    requires { at + length (numbers_of numbers) ≤ length out.old }
    ensures filled { take result out.new ≡ take at out.old ++ numbers_of numbers }
    ensures count { result ≡ at + length (numbers_of numbers) }
    ensures len { length out.new ≡ length out.old }
{
    match numbers {
        Numbers::None => at,
        Numbers::One(first) => {
            out[at] = first;
            at + 1
        }
        Numbers::Two(first, second) => {
            out[at] = first;
            out[at + 1] = second;
            at + 2
        }
    }
}

/// Writes the path.
pub(crate) fn fill(frames: &[Frame], out: &mut [usize])
    requires { length out.old ≡ length (path_of frames.now) }
    ensures { out.new ≡ path_of frames.now }
{
    let mut filled = 0;
    for frame in frames {
        filled = put(numbers_in(frame), filled, out);
    }
}
