// The data groups and pools of each question about commands.

use data_groups::{Group, GroupFault, GroupKind};
use irule_net::{Groups, NamedGroup, PoolMembers};
use px_bytes::{Addr, Pairs, Seq};
use questions::Question;

// Of each data group the name, the kind, and its keys with their values.
const TEXTS: [(&str, &str); 6] = [
    ("/img/", "image"),
    ("/", "root"),
    (".png", "picture"),
    ("", "nothing"),
    ("/img/x", "deep"),
    ("a b", "two words"),
];

const NETWORKS: [(&str, &str); 4] = [
    ("10.0.0.0/8", "inside"),
    ("10.1.0.0/16", "office"),
    ("192.0.2.7", "guest"),
    ("0.0.0.0/0", ""),
];

const NUMBERS: [(&str, &str); 3] = [("010", "eight"), ("-5", "minus five"), ("0x10", "sixteen")];

/// The groups `texts`, `networks`, `numbers` and `none`, and the pools `p` and `q`.
pub fn groups(question: &mut Question<'_>) -> Groups {
    let mut classes = Seq::new(question.alloc);
    add_class(question, &mut classes, "texts", GroupKind::String, &TEXTS);
    add_class(question, &mut classes, "networks", GroupKind::Ip, &NETWORKS);
    add_class(
        question,
        &mut classes,
        "numbers",
        GroupKind::Integer,
        &NUMBERS,
    );
    add_class(question, &mut classes, "none", GroupKind::String, &[]);
    let mut pools = Seq::new(question.alloc);
    add_pool(question, &mut pools, "p", &[(1, 80), (2, 8080)]);
    add_pool(question, &mut pools, "q", &[(3, 80)]);
    Groups { classes, pools }
}

fn add_class(
    question: &mut Question<'_>,
    classes: &mut Seq<NamedGroup>,
    name: &str,
    kind: GroupKind,
    rows: &[(&str, &str)],
) {
    match Group::new(question.alloc, kind, pairs(question, rows)) {
        Ok(group) => {
            let name = question.literal(name);
            question.note(classes.push(NamedGroup { name, group }));
        }
        Err(GroupFault::Memory | GroupFault::BadKey(_)) => question.refuse(),
    }
}

fn pairs(question: &mut Question<'_>, rows: &[(&str, &str)]) -> Pairs {
    let mut pairs = Pairs::new(question.alloc);
    for (key, value) in rows {
        let pair = (question.literal(key), question.literal(value));
        question.note(pairs.push(pair));
    }
    pairs
}

// Members by the last number of their address, and their port.
fn add_pool(
    question: &mut Question<'_>,
    pools: &mut Seq<PoolMembers>,
    name: &str,
    numbers: &[(u32, u16)],
) {
    let mut members = Seq::new(question.alloc);
    for (last, port) in numbers {
        let ip = 0x0a00_0000 | (*last & 0xff);
        question.note(members.push(Addr { ip, port: *port }));
    }
    let name = question.literal(name);
    question.note(pools.push(PoolMembers { name, members }));
}
