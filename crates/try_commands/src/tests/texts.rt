// The texts that the rows speak of.

/// A virtual server whose rule answers each client "hi 7".
const HI: &[u8] = b"version = 1

[[virtual]]
name = \"v\"
listen = \"127.0.0.1:9000\"
rules = [\"r\"]

[[rule]]
name = \"r\"
text = \"when CLIENT_ACCEPTED { set x 7; TCP::respond \\\"hi $x\\\" }\"
";

/// A client that is answered, as a schedule.
const SCHEDULE: &[u8] = b"accept 1 v 10.0.0.9 4000
run
client-took 1 4
";

/// What the replay of a client writes that is answered "hi 7", but for its last line.
pub(super) const ANSWERED: &[u8] = b"> finish 1 unselected
> close-client 1
> ended 1 0
> client 1 68692037
> end ";

/// What the replay of the schedule writes.
pub(super) const REPORT: &[u8] = b"> finish 1 unselected
> close-client 1
> ended 1 0
> client 1 68692037
> end 3
";

/// What an explanation says where that rule can't be read.
pub(super) const UNREAD_RULE: &[u8] = b"config fault 1 at r.tcl
r.tcl: this file can't be read
";

/// A virtual server of HTTP whose members are kept by a cookie, with a rule that stands in a file.
const OF_FILES: &[u8] = b"version = 1

[[virtual]]
name = \"v\"
listen = \"127.0.0.1:9000\"
http = true
pool = \"p\"
persist = \"cookie\"
rules = [\"r\"]

[[rule]]
name = \"r\"
file = \"r.tcl\"

[[pool]]
name = \"p\"
members = [{ addr = \"10.0.0.1:80\" }]
";

/// A virtual server of HTTP, whose rule answers each request.
const WEB: &[u8] = b"version = 1

[[virtual]]
name = \"v\"
listen = \"127.0.0.1:9000\"
http = true
rules = [\"r\"]

[[rule]]
name = \"r\"
text = \"when HTTP_REQUEST { HTTP::respond 200 content ok }\"
";

/// What its clients take.
pub(super) const OK_ANSWER: &[u8] =
    b"HTTP/1.0 200 OK\r\nServer: BigIP\r\nConnection: Keep-Alive\r\nContent-Length: 2\r\n\r\nok";

const RULE: &[u8] = b"when CLIENT_ACCEPTED { TCP::respond hello }";

/// A virtual server whose default pool has one member.
const POOL: &[u8] = b"version = 1

[[virtual]]
name = \"v\"
listen = \"127.0.0.1:9000\"
pool = \"p\"

[[pool]]
name = \"p\"
members = [{ addr = \"10.0.0.1:80\" }]
";

/// The files by their names.
pub(super) static FILES: [(&str, &[u8]); 7] = [
    ("hi.toml", HI),
    ("hi.txt", SCHEDULE),
    ("files.toml", OF_FILES),
    ("r.tcl", RULE),
    ("pool.toml", POOL),
    ("web.toml", WEB),
    ("bad.toml", b"x"),
];
