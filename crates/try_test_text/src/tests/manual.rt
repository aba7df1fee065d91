// The three files of the manual: where their tests stand, and how much each has, counted by hand.

use super::files::{EDGE, LIMIT, RACE};
use test_text::{Deed, PeerDeed, TestCase, TestFile, TestStep, read_test_file};
use text_places::line_of;

/// The line of a test, its name, how many clients and steps it has, and how many deeds are done
/// together.
struct Counted {
    line: usize,
    name: &'static str,
    clients: usize,
    steps: usize,
    together: usize,
}

static EDGE_TESTS: [Counted; 4] = [
    Counted {
        line: 4,
        name: "a client of an allowed network is let in",
        clients: 1,
        steps: 11,
        together: 0,
    },
    Counted {
        line: 18,
        name: "another one is rejected without a byte",
        clients: 1,
        steps: 4,
        together: 0,
    },
    Counted {
        line: 25,
        name: "TLS goes to its pool, by three bytes",
        clients: 1,
        steps: 4,
        together: 0,
    },
    Counted {
        line: 32,
        name: "a server that refuses is replaced",
        clients: 1,
        steps: 5,
        together: 0,
    },
];

static LIMIT_TESTS: [Counted; 2] = [
    Counted {
        line: 4,
        name: "the third of three at once is slowed down, in whatever order",
        clients: 3,
        steps: 6,
        together: 6,
    },
    Counted {
        line: 20,
        name: "ten seconds later it may come again",
        clients: 1,
        steps: 6,
        together: 0,
    },
];

static RACE_TESTS: [Counted; 1] = [Counted {
    line: 4,
    name: "two of three come in",
    clients: 3,
    steps: 2,
    together: 3,
}];

#[test]
fn edge_is_read(rt: HostRuntime) -> Result<(), &'static str> {
    match read_test_file(rt.alloc(), EDGE.as_bytes()) {
        Ok(file) => are_counted(EDGE, &file, "edge.toml", EDGE_TESTS.as_slice()),
        Err(_) => Err("edge.test"),
    }
}

#[test]
fn limit_is_read(rt: HostRuntime) -> Result<(), &'static str> {
    match read_test_file(rt.alloc(), LIMIT.as_bytes()) {
        Ok(file) => are_counted(LIMIT, &file, "limit.toml", LIMIT_TESTS.as_slice()),
        Err(_) => Err("limit.test"),
    }
}

#[test]
fn race_is_read(rt: HostRuntime) -> Result<(), &'static str> {
    match read_test_file(rt.alloc(), RACE.as_bytes()) {
        Ok(file) => are_counted(RACE, &file, "race.toml", RACE_TESTS.as_slice()),
        Err(_) => Err("race.test"),
    }
}

#[test]
fn bytes_are_read_of_escapes(rt: HostRuntime) -> Result<(), &'static str> {
    match read_test_file(rt.alloc(), EDGE.as_bytes()) {
        Ok(file) if sends_a_hello(&file) => Ok(()),
        _ => Err("a hello of TLS is sent"),
    }
}

// Whether a file has this configuration alone, and these tests; which of them it hasn't.
fn are_counted(
    text: &str,
    file: &TestFile,
    config: &'static str,
    tests: &[Counted],
) -> Result<(), &'static str> {
    let configs = file.configs.as_slice();
    if configs.len() != 1 || configs[0].name.as_bytes() != config.as_bytes() {
        return Err(config);
    }
    if file.tests.len() != tests.len() {
        return Err("the number of tests");
    }
    for (test, counted) in file.tests.as_slice().iter().zip(tests.iter()) {
        if !is_counted(text, test, counted) {
            return Err(counted.name);
        }
    }
    Ok(())
}

fn is_counted(text: &str, test: &TestCase, counted: &Counted) -> bool {
    line_of(text.as_bytes(), test.place) == counted.line
        && test.name.as_bytes() == counted.name.as_bytes()
        && test.config == 0
        && test.clients.len() == counted.clients
        && test.steps.len() == counted.steps
        && test
            .steps
            .as_slice()
            .iter()
            .all(|step| has_deeds(&step.step, counted.together))
}

fn has_deeds(step: &TestStep, count: usize) -> bool {
    match step {
        TestStep::Together(deeds) => deeds.len() == count,
        _ => true,
    }
}

// Whether the third test sends the first five bytes of a record of TLS in its second step.
fn sends_a_hello(file: &TestFile) -> bool {
    let Some(test) = file.tests.get(2) else {
        return false;
    };
    match test.steps.get(1) {
        Some(placed) => is_hello(&placed.step),
        None => false,
    }
}

fn is_hello(step: &TestStep) -> bool {
    match step {
        TestStep::One(
            Deed::Does {
                deed: PeerDeed::Sends(bytes),
                ..
            },
        ) => bytes.as_bytes() == [22, 3, 1, 2, 0].as_slice(),
        _ => false,
    }
}
