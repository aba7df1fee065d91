// What is told of a run that failed.

use crate::shown::{add_unasked, joined, side_name};
use crate::stopped::add_stopped;
use px_bytes::{M, Side, Text, Texts};
use std::alloc::Global;
use test_past::{ClientConn, RunEnd, RunEntry, Verdict, conn_of, got_by, question_at};
use test_text::TestCase;

/// A run of a test that failed: what it is told by.
#[derive(Clone, Copy)]
pub struct FailedRun<'a> {
    pub test: &'a TestCase,
    pub came: &'a [ClientConn],
    pub entries: &'a [RunEntry],
    /// How many rows of the session table may be live.
    pub rows: u32,
}

// Whether a line tells a fault.
fn is_fault(line: &Text) -> bool {
    line.as_bytes().starts_with(b"TCL error: ")
}

impl FailedRun<'_> {
    pub(crate) fn name(&self, client: usize) -> &[u8] {
        match self.test.clients.get(client) {
            Some(name) => name.as_bytes(),
            None => b"?",
        }
    }

    /// A client's name, or that of RULE_INIT.
    pub(crate) fn owner(&self, of: Option<usize>) -> &[u8] {
        match of {
            Some(client) => self.name(client),
            None => b"init",
        }
    }

    /// What a client or its server took since the last question.
    pub(crate) fn got(&self, alloc: Global, side: Side, client: usize) -> M<Text> {
        let steps = self.test.steps.as_slice();
        got_by(alloc, steps, self.came, side, client, self.entries)
    }

    pub(crate) fn conn(&self, client: usize) -> u32 {
        conn_of(client, self.came).unwrap_or(0)
    }

    /// A client, or its server.
    pub(crate) fn who(&self, alloc: Global, side: Side, client: usize) -> M<Text> {
        let mut who = Text::new(alloc, side_name(side))?;
        who.push(b" ")?;
        who.push(self.name(client))?;
        Ok(who)
    }

    fn add_unread(&self, alloc: Global, lines: &mut Texts, side: Side, client: usize) -> M<()> {
        let got = self.got(alloc, side, client)?;
        let who = self.who(alloc, side, client)?;
        add_unasked(alloc, lines, &who, got.as_bytes())
    }

    // The last line that tells a fault.
    fn fault_line(&self, of: Option<usize>) -> Option<&Text> {
        let conn = match of {
            None => 0,
            Some(client) => self.conn(client),
        };
        let mut found = None;
        for entry in self.entries {
            if let RunEntry::Logged { conn: whose, text } = entry {
                if *whose == conn && is_fault(text) {
                    found = Some(text);
                }
            }
        }
        found
    }

    fn add_fault(&self, alloc: Global, lines: &mut Texts, of: Option<usize>) -> M<()> {
        match self.fault_line(of) {
            Some(line) => {
                let who = joined(alloc, &[b"log ", self.owner(of)])?;
                add_unasked(alloc, lines, &who, line.as_bytes())
            }
            None => Ok(()),
        }
    }

    fn add_step(&self, alloc: Global, lines: &mut Texts, step: usize) -> M<()> {
        match question_at(self.test.steps.as_slice(), step) {
            Some(question) => self.add_question(alloc, lines, question),
            None => Ok(()),
        }
    }

    /// Adds the lines that tell what failed.
    pub fn add_lines(
        &self,
        alloc: Global,
        lines: &mut Texts,
        end: RunEnd,
        verdict: Verdict,
    ) -> M<()> {
        match verdict {
            Verdict::Passed => Ok(()),
            Verdict::Question { step } => self.add_step(alloc, lines, step),
            Verdict::Stopped => add_stopped(alloc, lines, end, self.entries),
            Verdict::Unread { client, side } => self.add_unread(alloc, lines, side, client),
            Verdict::Fault { of } => self.add_fault(alloc, lines, of),
        }
    }
}
