// Notes as lines.

ghost use Rattle.std.specs.Prelude.{◌≡◌, IfOk, string_bytes};
ghost use Rattle.journal_text.specs.Notes.{fault_number, http_number, note_line, note_lines};
ghost use Rattle.journal_text.specs.Notes.{reply_text, side_text};

use core_events::{Cause, CutReason, Note};
use px_bytes::{
    Addr, FaultKind, HttpFault, M, Reply, Side, Text, Texts, escape, print_addr, print_hex,
};
use std::alloc::Global;
use tcl_lists::join_list;

/// The lines of notes, in order.
pub fn write_notes(alloc: Global, notes: &[Note]) -> M<Text>
    ensures { IfOk result (λ text. text ≡ note_lines notes.now) }
{
    let mut text = Text::empty(alloc);
    for note in notes {
        text.push(write_note(alloc, note)?.as_bytes())?;
    }
    Ok(text)
}

/// The line of a note, with its LF.
pub fn write_note(alloc: Global, note: &Note) -> M<Text>
    ensures { IfOk result (λ text. text ≡ note_line note.now) }
{
    match note {
        Note::Connect { conn, to } => connect_text(alloc, *conn, *to),
        Note::Sleep { conn, until } => sleep_text(alloc, *conn, *until),
        Note::History {
            conn,
            moment,
            call,
            reply,
        } => history_text(alloc, *conn, *moment, call, reply),
        Note::Log { conn, text } => log_text(alloc, *conn, text),
        Note::Pass { conn, side, n } => pass_text(alloc, *conn, *side, *n),
        Note::Fired { conn, side } => fired_text(alloc, *conn, *side),
        Note::Reuse { conn, kept } => reuse_text(alloc, *conn, *kept),
        Note::Finish { conn, cause } => finish_text(alloc, *conn, *cause),
        Note::HalfClose { conn, side } => half_close_text(alloc, *conn, *side),
        Note::CloseServer { conn } => Ok(text_of(format!(in alloc; "> close-server {conn}\n")?)),
        Note::CloseClient { conn } => Ok(text_of(format!(in alloc; "> close-client {conn}\n")?)),
        Note::Ended { conn, dropped } => ended_text(alloc, *conn, *dropped),
    }
}

fn connect_text(alloc: Global, conn: u32, to: Addr) -> M<Text>
    ensures { IfOk result (λ line. line ≡ note_line (Note.Connect conn to)) }
{
    let mut line = text_of(format!(in alloc; "> connect {conn} ")?);
    line.push(print_addr(alloc, to)?.as_bytes())?;
    line.push(b"\n")?;
    Ok(line)
}

fn sleep_text(alloc: Global, conn: u32, until: u64) -> M<Text>
    ensures { IfOk result (λ line. line ≡ note_line (Note.Sleep conn until)) }
{
    Ok(text_of(format!(in alloc; "> sleep {conn} {until}\n")?))
}

fn history_text(alloc: Global, conn: u32, moment: u64, call: &Texts, reply: &Reply) -> M<Text>
    ensures { IfOk result (λ line. line ≡ note_line (Note.History conn moment call.now reply.now)) }
{
    let mut line = text_of(format!(in alloc; "> history {conn} {moment} ")?);
    line.push(print_hex(alloc, join_list(alloc, call)?.as_bytes())?.as_bytes())?;
    line.push(b" ")?;
    line.push(reply_text(alloc, reply)?.as_bytes())?;
    line.push(b"\n")?;
    Ok(line)
}

fn reply_text(alloc: Global, reply: &Reply) -> M<Text>
    ensures { IfOk result (λ text. text ≡ reply_text reply.now) }
{
    match reply {
        Reply::Ok(value) => {
            let mut text = Text::new(alloc, b"ok ")?;
            text.push(print_hex(alloc, value.as_bytes())?.as_bytes())?;
            Ok(text)
        }
        Reply::Fault(fault) => {
            let number = fault_number(fault.kind);
            let mut text = text_of(format!(in alloc; "fault {number} ")?);
            text.push(print_hex(alloc, fault.text.as_bytes())?.as_bytes())?;
            Ok(text)
        }
    }
}

fn half_close_text(alloc: Global, conn: u32, side: Side) -> M<Text>
    ensures { IfOk result (λ line. line ≡ note_line (Note.HalfClose conn side)) }
{
    let mut line = text_of(format!(in alloc; "> half-close {conn} ")?);
    line.push(side_text(side))?;
    line.push(b"\n")?;
    Ok(line)
}

fn side_text(side: Side) -> &'static [u8]
    ensures { result.now ≡ side_text side }
{
    match side {
        Side::Client => b"client",
        Side::Server => b"server",
    }
}

fn pass_text(alloc: Global, conn: u32, side: Side, n: usize) -> M<Text>
    ensures { IfOk result (λ line. line ≡ note_line (Note.Pass conn side n)) }
{
    Ok(text_of(match side {
        Side::Client => format!(in alloc; "> pass {conn} client {n}\n")?,
        Side::Server => format!(in alloc; "> pass {conn} server {n}\n")?,
    }))
}

fn fired_text(alloc: Global, conn: u32, side: Side) -> M<Text>
    ensures { IfOk result (λ line. line ≡ note_line (Note.Fired conn side)) }
{
    Ok(text_of(match side {
        Side::Client => format!(in alloc; "> fired {conn} client\n")?,
        Side::Server => format!(in alloc; "> fired {conn} server\n")?,
    }))
}

fn reuse_text(alloc: Global, conn: u32, kept: bool) -> M<Text>
    ensures { IfOk result (λ line. line ≡ note_line (Note.Reuse conn kept)) }
{
    Ok(text_of(if kept {
        format!(in alloc; "> reuse {conn} kept\n")?
    } else {
        format!(in alloc; "> reuse {conn} gone\n")?
    }))
}

fn log_text(alloc: Global, conn: u32, text: &Text) -> M<Text>
    ensures { IfOk result (λ line. line ≡ note_line (Note.Log conn text.now)) }
{
    let mut line = text_of(format!(in alloc; "> log {conn} ")?);
    line.push(escape(alloc, text.as_bytes())?.as_bytes())?;
    line.push(b"\n")?;
    Ok(line)
}

fn finish_text(alloc: Global, conn: u32, cause: Cause) -> M<Text>
    ensures { IfOk result (λ line. line ≡ note_line (Note.Finish conn cause)) }
{
    Ok(text_of(match cause {
        Cause::Closed => format!(in alloc; "> finish {conn} closed\n")?,
        Cause::Tcl(kind) => format!(in alloc; "> finish {conn} tcl {}\n", fault_number(kind))?,
        Cause::Http(fault) => format!(in alloc; "> finish {conn} http {}\n", http_number(fault))?,
        Cause::Unselected => format!(in alloc; "> finish {conn} unselected\n")?,
        Cause::Rejected => format!(in alloc; "> finish {conn} rejected\n")?,
        Cause::Cut(reason) => return cut_text(alloc, conn, reason),
        Cause::Memory => format!(in alloc; "> finish {conn} memory\n")?,
    }))
}

fn cut_text(alloc: Global, conn: u32, reason: CutReason) -> M<Text>
    ensures { IfOk result (λ line. line ≡ note_line (Note.Finish conn (Cause.Cut reason))) }
{
    Ok(text_of(match reason {
        CutReason::ClientReset => format!(in alloc; "> finish {conn} cut client-reset\n")?,
        CutReason::ServerReset => format!(in alloc; "> finish {conn} cut server-reset\n")?,
        CutReason::Idle => format!(in alloc; "> finish {conn} cut idle\n")?,
    }))
}

fn ended_text(alloc: Global, conn: u32, dropped: usize) -> M<Text>
    ensures { IfOk result (λ line. line ≡ note_line (Note.Ended conn dropped)) }
{
    Ok(text_of(format!(in alloc; "> ended {conn} {dropped}\n")?))
}

fn fault_number(kind: FaultKind) -> u8
    ensures { result ≡ fault_number kind }
{
    kind as u8
}

// The first one is 1.
fn http_number(fault: HttpFault) -> u8
    ensures { result ≡ http_number fault }
{
    match fault {
        HttpFault::BadHead => 1,
        HttpFault::LongHead => 2,
        HttpFault::Host => 3,
        HttpFault::Framing => 4,
        HttpFault::BadChunk => 5,
        HttpFault::ShortBody => 6,
        HttpFault::Switching => 7,
        HttpFault::Method => 8,
    }
}

fn text_of(line: String) -> Text
    ensures { result ≡ string_bytes line }
{
    Text::from_vec(line.into_bytes())
}
