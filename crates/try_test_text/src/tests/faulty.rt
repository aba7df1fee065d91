// Faulty files: what is wrong with each, and where, worked out by hand.

use super::marked::{Faulty, is_told};

const ODD: &str = "this word can't stand here";

const MISSING: &str = "a word is missing behind this line";

const ADDRESS: &str = "an address A.B.C.D:PORT is due here";

const NUMBER: &str = "a whole number is due here";

const BRACES: &str = "braces are due here";

const SUBSTITUTED: &str = "a word with a variable or a bracket";

const NO_CLIENT: &str = "no client of this name came before";

const TWICE: &str = "a client of this name came before";

const CAUSE: &str = "no connection ends for this cause";

const CONFIG: &str = "a test wants a configuration before it";

// Lines of a test, behind that of a client `a`.
static LINES: [Faulty; 124] = [
    Faulty {
        text: "client@",
        says: MISSING,
    },
    Faulty {
        text: "client b from@",
        says: MISSING,
    },
    Faulty {
        text: "client b from 10.0.0.9@",
        says: MISSING,
    },
    Faulty {
        text: "client b from 10.0.0.9 to@",
        says: MISSING,
    },
    Faulty {
        text: "client b from @10.0.0 to web",
        says: ADDRESS,
    },
    Faulty {
        text: "client b from @10.0.0.9:0 to web",
        says: ADDRESS,
    },
    Faulty {
        text: "client b from @10.0.0.9:70000 to web",
        says: ADDRESS,
    },
    Faulty {
        text: "client b from @010.0.0.9 to web",
        says: ADDRESS,
    },
    Faulty {
        text: "client b from @localhost to web",
        says: ADDRESS,
    },
    Faulty {
        text: "client b from 10.0.0.9 @at web",
        says: ODD,
    },
    Faulty {
        text: "client b from 10.0.0.9 @web",
        says: ODD,
    },
    Faulty {
        text: "client b from 10.0.0.9 to web @now",
        says: ODD,
    },
    Faulty {
        text: "client @a from 10.0.0.9 to web",
        says: TWICE,
    },
    Faulty {
        text: "client @$name from 10.0.0.9 to web",
        says: SUBSTITUTED,
    },
    Faulty {
        text: "client b from @[address] to web",
        says: SUBSTITUTED,
    },
    Faulty {
        text: "client b from 10.0.0.9 to @$web",
        says: SUBSTITUTED,
    },
    Faulty {
        text: "client b from 10.0.0.9 @{to} web",
        says: ODD,
    },
    Faulty {
        text: "client a@",
        says: MISSING,
    },
    Faulty {
        text: "client @b",
        says: NO_CLIENT,
    },
    Faulty {
        text: "client @b sends hi",
        says: NO_CLIENT,
    },
    Faulty {
        text: "client a @send hi",
        says: ODD,
    },
    Faulty {
        text: "client a sends@",
        says: MISSING,
    },
    Faulty {
        text: "client a sends @$text",
        says: SUBSTITUTED,
    },
    Faulty {
        text: "client a sends hi @there",
        says: ODD,
    },
    Faulty {
        text: "client a sends @\"to $whom\"",
        says: SUBSTITUTED,
    },
    Faulty {
        text: "client a ends @now",
        says: ODD,
    },
    Faulty {
        text: "client a resets @now",
        says: ODD,
    },
    Faulty {
        text: "client a @\"ends\"",
        says: ODD,
    },
    Faulty {
        text: "client a @form 10.0.0.9 to web",
        says: ODD,
    },
    Faulty {
        text: "client a takes@",
        says: MISSING,
    },
    Faulty {
        text: "client a takes @some",
        says: NUMBER,
    },
    Faulty {
        text: "client a takes @-1",
        says: NUMBER,
    },
    Faulty {
        text: "client a takes @010",
        says: NUMBER,
    },
    Faulty {
        text: "client a takes @9007199254740993",
        says: NUMBER,
    },
    Faulty {
        text: "client a takes all @bytes",
        says: ODD,
    },
    Faulty {
        text: "client a takes @{all}",
        says: NUMBER,
    },
    Faulty {
        text: "client a takes @[n]",
        says: SUBSTITUTED,
    },
    Faulty {
        text: "client @{a b} ends",
        says: NO_CLIENT,
    },
    Faulty {
        text: "server@",
        says: MISSING,
    },
    Faulty {
        text: "server a@",
        says: MISSING,
    },
    Faulty {
        text: "server @b sends hi",
        says: NO_CLIENT,
    },
    Faulty {
        text: "server a @from 10.0.0.9 to web",
        says: ODD,
    },
    Faulty {
        text: "server a sends@",
        says: MISSING,
    },
    Faulty {
        text: "server a ends @it",
        says: ODD,
    },
    Faulty {
        text: "server a takes @0x10",
        says: NUMBER,
    },
    Faulty {
        text: "server a @is none",
        says: ODD,
    },
    Faulty {
        text: "member@",
        says: MISSING,
    },
    Faulty {
        text: "member 10.0.1.1:80@",
        says: MISSING,
    },
    Faulty {
        text: "member @10.0.1.1 refuses",
        says: ADDRESS,
    },
    Faulty {
        text: "member @a refuses",
        says: ADDRESS,
    },
    Faulty {
        text: "member 10.0.1.1:80 @refuse",
        says: ODD,
    },
    Faulty {
        text: "member 10.0.1.1:80 refuses @all",
        says: ODD,
    },
    Faulty {
        text: "member @$server refuses",
        says: SUBSTITUTED,
    },
    Faulty {
        text: "mark@",
        says: MISSING,
    },
    Faulty {
        text: "mark main@",
        says: MISSING,
    },
    Faulty {
        text: "mark main @10.0.1.1 up",
        says: ADDRESS,
    },
    Faulty {
        text: "mark main 10.0.1.1:80@",
        says: MISSING,
    },
    Faulty {
        text: "mark main 10.0.1.1:80 @UP",
        says: ODD,
    },
    Faulty {
        text: "mark main 10.0.1.1:80 up @again",
        says: ODD,
    },
    Faulty {
        text: "mark @[pool] 10.0.1.1:80 up",
        says: SUBSTITUTED,
    },
    Faulty {
        text: "wait@",
        says: MISSING,
    },
    Faulty {
        text: "wait @soon",
        says: NUMBER,
    },
    Faulty {
        text: "wait 10 @seconds",
        says: ODD,
    },
    Faulty {
        text: "wait @1.5",
        says: NUMBER,
    },
    Faulty {
        text: "wait @\"\"",
        says: NUMBER,
    },
    Faulty {
        text: "together@",
        says: MISSING,
    },
    Faulty {
        text: "together @\"client a ends\"",
        says: BRACES,
    },
    Faulty {
        text: "together { client a ends } @{ client a ends }",
        says: ODD,
    },
    Faulty {
        text: "together { @expect client a open }",
        says: ODD,
    },
    Faulty {
        text: "together { @together { client a ends } }",
        says: ODD,
    },
    Faulty {
        text: "together { client a ends ; client @b ends }",
        says: NO_CLIENT,
    },
    Faulty {
        text: "together { client a @end }",
        says: ODD,
    },
    Faulty {
        text: "together { @wait\\ 1 }",
        says: ODD,
    },
    Faulty {
        text: "expect@",
        says: MISSING,
    },
    Faulty {
        text: "expect @b gets hi",
        says: ODD,
    },
    Faulty {
        text: "expect client@",
        says: MISSING,
    },
    Faulty {
        text: "expect client @b gets hi",
        says: NO_CLIENT,
    },
    Faulty {
        text: "expect client a@",
        says: MISSING,
    },
    Faulty {
        text: "expect client a @get hi",
        says: ODD,
    },
    Faulty {
        text: "expect client a gets@",
        says: MISSING,
    },
    Faulty {
        text: "expect client a gets like@",
        says: MISSING,
    },
    Faulty {
        text: "expect client a gets hi @there",
        says: ODD,
    },
    Faulty {
        text: "expect client a gets nothing @more",
        says: ODD,
    },
    Faulty {
        text: "expect client a gets @$all",
        says: SUBSTITUTED,
    },
    Faulty {
        text: "expect client a open @still",
        says: ODD,
    },
    Faulty {
        text: "expect client a over@",
        says: MISSING,
    },
    Faulty {
        text: "expect client a over @idle",
        says: ODD,
    },
    Faulty {
        text: "expect client a over tcl@",
        says: MISSING,
    },
    Faulty {
        text: "expect client a over tcl @0",
        says: CAUSE,
    },
    Faulty {
        text: "expect client a over tcl @15",
        says: CAUSE,
    },
    Faulty {
        text: "expect client a over http @9",
        says: CAUSE,
    },
    Faulty {
        text: "expect client a over cut @memory",
        says: ODD,
    },
    Faulty {
        text: "expect client a over closed @twice",
        says: ODD,
    },
    Faulty {
        text: "expect client a over tcl @one",
        says: NUMBER,
    },
    Faulty {
        text: "expect server a is@",
        says: MISSING,
    },
    Faulty {
        text: "expect server a is @10.0.1.1",
        says: ADDRESS,
    },
    Faulty {
        text: "expect server a is none @yet",
        says: ODD,
    },
    Faulty {
        text: "expect server a @over closed",
        says: ODD,
    },
    Faulty {
        text: "expect log@",
        says: MISSING,
    },
    Faulty {
        text: "expect log @b hi",
        says: NO_CLIENT,
    },
    Faulty {
        text: "expect log @\"init\" hi",
        says: NO_CLIENT,
    },
    Faulty {
        text: "expect log a@",
        says: MISSING,
    },
    Faulty {
        text: "expect row@",
        says: MISSING,
    },
    Faulty {
        text: "expect row hits@",
        says: MISSING,
    },
    Faulty {
        text: "expect row hits k@",
        says: MISSING,
    },
    Faulty {
        text: "expect row hits k v @w",
        says: ODD,
    },
    Faulty {
        text: "expect 2@",
        says: MISSING,
    },
    Faulty {
        text: "expect @two of {a} get hi",
        says: ODD,
    },
    Faulty {
        text: "expect 2 of @a get hi",
        says: BRACES,
    },
    Faulty {
        text: "expect 2 of {a @b} get hi",
        says: NO_CLIENT,
    },
    Faulty {
        text: "expect 2 of {a} @gets hi",
        says: ODD,
    },
    Faulty {
        text: "expect 2 of {a} get@",
        says: MISSING,
    },
    Faulty {
        text: "expect 2 of {a} get nothing @more",
        says: ODD,
    },
    Faulty {
        text: "expect 1 of {a\n@a} get hi",
        says: ODD,
    },
    Faulty {
        text: "expect 1 of {@$a} get hi",
        says: SUBSTITUTED,
    },
    Faulty {
        text: "@clients a ends",
        says: ODD,
    },
    Faulty {
        text: "@{client} a ends",
        says: ODD,
    },
    Faulty {
        text: "@$step",
        says: SUBSTITUTED,
    },
    Faulty {
        text: "@config b.toml",
        says: ODD,
    },
    Faulty {
        text: "@test \"y\" {}",
        says: ODD,
    },
    Faulty {
        text: "client a sends @\"hi",
        says: "a quote that stays open",
    },
    Faulty {
        text: "client a sends \"hi\"@there",
        says: "a blank or a line's end must follow a closing brace or quote",
    },
    Faulty {
        text: "client a sends @\\u0100",
        says: "an escape of a number above 255, which is no byte",
    },
    Faulty {
        text: "client @b sends \"hi",
        says: NO_CLIENT,
    },
];

// Whole files.
static FILES: [Faulty; 14] = [
    Faulty {
        text: "@client a from 10.0.0.9 to web",
        says: ODD,
    },
    Faulty {
        text: "config@",
        says: MISSING,
    },
    Faulty {
        text: "config a.toml @b.toml",
        says: ODD,
    },
    Faulty {
        text: "config @$file",
        says: SUBSTITUTED,
    },
    Faulty {
        text: "@test \"x\" {}",
        says: CONFIG,
    },
    Faulty {
        text: "config a.toml\ntest@",
        says: MISSING,
    },
    Faulty {
        text: "config a.toml\ntest \"x\"@",
        says: MISSING,
    },
    Faulty {
        text: "config a.toml\ntest \"x\" @ends",
        says: BRACES,
    },
    Faulty {
        text: "config a.toml\ntest \"x\" {} @{}",
        says: ODD,
    },
    Faulty {
        text: "config a.toml\ntest @\"$x\" {}",
        says: SUBSTITUTED,
    },
    Faulty {
        text: "config a.toml\ntest \"x\" @{\n    client a from 10.0.0.9 to web\n",
        says: "a brace that stays open",
    },
    Faulty {
        text: "# nothing\n\n  @tests",
        says: ODD,
    },
    Faulty {
        text: "config a.toml\ntest \"x\" {\n    client a from 10.0.0.9 to web\n}\ntest \"y\" {\n    client @a ends\n}",
        says: NO_CLIENT,
    },
    Faulty {
        text: "config a.toml\ntest \"x\" {\n    client @a ends\n    client a from 10.0.0.9 to web\n}",
        says: NO_CLIENT,
    },
];

const FRONT: &str = "config a.toml\ntest \"x\" {\n    client a from 10.0.0.9 to web\n    ";

#[test]
fn faulty_lines_are_told(rt: HostRuntime) -> Result<(), &'static str> {
    for row in LINES.iter() {
        if !is_told(rt.alloc(), FRONT, row, "\n}\n").unwrap_or(false) {
            return Err(row.text);
        }
    }
    Ok(())
}

#[test]
fn faulty_files_are_told(rt: HostRuntime) -> Result<(), &'static str> {
    for row in FILES.iter() {
        if !is_told(rt.alloc(), "", row, "").unwrap_or(false) {
            return Err(row.text);
        }
    }
    Ok(())
}
