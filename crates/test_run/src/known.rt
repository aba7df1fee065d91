// What a test said of its peers so far.

ghost use Rattle.std.specs.Prelude.{◌≡◌, None};
ghost use Rattle.test_run.specs.Known.{amount_by, amount_from, meeting_by, meeting_from};

use px_bytes::{Addr, Seq, Side};
use test_past::{ClientConn, same_side};
use test_text::Meeting;

/// How a server meets those that connect, from some step on.
#[derive(Clone, Copy)]
pub struct Meets {
    pub addr: Addr,
    pub meeting: Meeting,
}

/// How many bytes a side of a client takes behind each step, from some step on; all, where no number
/// is said.
#[derive(Clone, Copy)]
pub struct Amount {
    pub side: Side,
    pub client: usize,
    pub most: Option<u64>,
}

/// The text of which a piece was sent last, by its deed.
#[derive(Clone, Copy, PartialEq, Eq)]
pub struct SendingText {
    pub step: usize,
    pub at: usize,
}

/// What a test said of its peers so far, in order.
#[derive(Drop)]
pub struct Known {
    /// The clients that came.
    pub came: Seq<ClientConn>,
    pub amounts: Seq<Amount>,
    pub meets: Seq<Meets>,
    pub sending: Option<SendingText>,
}

fn meeting_by(addr: Addr, one: Meets, before: Meeting) -> Meeting
    ensures { result ≡ meeting_by addr one before }
{
    if one.addr == addr {
        one.meeting
    } else {
        before
    }
}

/// How a server meets those that connect: it takes them, where nothing is said.
pub(crate) fn meeting_of(addr: Addr, meets: &[Meets]) -> Meeting
    ensures { result ≡ meeting_from addr Meeting.Connects meets.now }
{
    let mut meeting = Meeting::Connects;
    for one in meets {
        meeting = meeting_by(addr, *one, meeting);
    }
    meeting
}

fn amount_by(side: Side, client: usize, one: Amount, before: Option<u64>) -> Option<u64>
    ensures { result ≡ amount_by side client one before }
{
    if same_side(one.side, side) && one.client == client {
        one.most
    } else {
        before
    }
}

/// How many bytes a side of a client takes behind each step.
pub(crate) fn amount_of(side: Side, client: usize, amounts: &[Amount]) -> Option<u64>
    ensures { result ≡ amount_from side client None amounts.now }
{
    let mut most = None;
    for one in amounts {
        most = amount_by(side, client, *one, most);
    }
    most
}
