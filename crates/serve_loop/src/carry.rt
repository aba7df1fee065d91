// The calls that notes ask for.

ghost use Rattle.std.specs.Prelude.{◌≡◌, OnOk, slice_get, option_map, take, IfErr, ◌≤◌};
ghost use Rattle.serve_loop.specs.Carrying.{action, Carried, CarriesOne, Carries};
ghost use Rattle.serve_loop.specs.Carrying.{CarriedSome, CarriesUpTo, ConnectStops};
ghost use Rattle.serve_loop.specs.Faults.{FromNet, is_memory};

use crate::{Links, ServeFault};
use core_events::Note;
use px_bytes::{Addr, Side};
use px_outside::Net;

/// What a note asks for.
#[derive(Clone, Copy)]
pub enum Action {
    Nothing,
    Connects { conn: u32, to: Addr },
    Finishes { conn: u32, side: Side },
    Closes { conn: u32, side: Side },
}

fn asked_for(note: &Note) -> Action
    ensures { result ≡ action note.now }
{
    match note {
        Note::Connect { conn, to } => Action::Connects {
            conn: *conn,
            to: *to,
        },
        Note::HalfClose { conn, side } => Action::Finishes {
            conn: *conn,
            side: *side,
        },
        Note::CloseClient { conn } => Action::Closes {
            conn: *conn,
            side: Side::Client,
        },
        Note::CloseServer { conn } => Action::Closes {
            conn: *conn,
            side: Side::Server,
        },
        Note::Sleep { .. } => Action::Nothing,
        Note::History { .. } => Action::Nothing,
        Note::Log { .. } => Action::Nothing,
        Note::Pass { .. } => Action::Nothing,
        Note::Fired { .. } => Action::Nothing,
        Note::Reuse { .. } => Action::Nothing,
        Note::Finish { .. } => Action::Nothing,
        Note::Ended { .. } => Action::Nothing,
    }
}

/// Makes the calls of the notes, in order.
#[tactic(auto, using(crate::proofs::Failing::from_later, crate::proofs::Failing::from_memory))]
pub fn carry<N: Net>(links: &mut Links, net: &mut N, notes: &[Note]) -> Result<(), ServeFault>
    ensures carries { OnOk result
        (Carried N.did N.gave (Carries notes.now) links.old links.new net.old net.new) }
    ensures broke { IfErr result (λ why. CarriedSome N.did N.gave
        (CarriesUpTo (is_memory why) notes.now links.old) net.old net.new) }
    ensures fails { IfErr result (FromNet (N.faults net.old) (N.faults net.new)) }
    ensures faults_never_fall { N.faults net.old ≤ N.faults net.new }
{
    for note in notes {
        carry_one(links, net, asked_for(note))?;
    }
    Ok(())
}

#[tactic(auto, using(crate::proofs::Failing::from_later, crate::proofs::Failing::from_memory))]
fn carry_one<N: Net>(links: &mut Links, net: &mut N, action: Action) -> Result<(), ServeFault>
    ensures carries { OnOk result
        (Carried N.did N.gave (CarriesOne action) links.old links.new net.old net.new) }
    ensures broke { IfErr result (λ why. CarriedSome N.did N.gave
        (ConnectStops (is_memory why) action) net.old net.new) }
    ensures fails { IfErr result (FromNet (N.faults net.old) (N.faults net.new)) }
    ensures faults_never_fall { N.faults net.old ≤ N.faults net.new }
{
    match action {
        Action::Nothing => Ok(()),
        Action::Connects { conn, to } => {
            let link = net.connect(to)?;
            links.open(link, conn, Side::Server)?;
            Ok(())
        }
        Action::Finishes { conn, side } => {
            if let Some(link) = links.link(conn, side) {
                net.finish(link);
            }
            Ok(())
        }
        Action::Closes { conn, side } => {
            if let Some(link) = links.link(conn, side) {
                net.close(link);
                links.close(link, conn, side);
            }
            Ok(())
        }
    }
}
