// The three files of the manual.

pub(super) static EDGE: &str =
    r#"# edge.test: who may come in, which pool is chosen, what is done where no server answers
config edge.toml

test "a client of an allowed network is let in" {
    client a from 10.1.2.3:4000 to acl
    expect log a "allowed 10.1.2.3 as "
    expect server a is 127.0.0.1:19101
    expect log a "10.1.2.3:4000 -> 127.0.0.1"
    client a sends "hello"
    expect server a gets "hello"
    server a sends "welcome\r\n"
    expect client a gets "welcome\r\n"
    client a ends
    server a ends
    expect client a over closed
}

test "another one is rejected without a byte" {
    client a from 192.0.2.7 to acl
    expect client a over rejected
    expect client a gets nothing
    expect server a is none
}

test "TLS goes to its pool, by three bytes" {
    client a from 10.0.0.9 to mux
    client a sends "\x16\x03\x01\x02\x00"
    expect server a is 127.0.0.1:19102
    expect server a gets "\x16\x03\x01\x02\x00"
}

test "a server that refuses is replaced" {
    member 127.0.0.1:19201 refuses
    client a from 10.0.0.9 to fail
    expect server a is 127.0.0.1:19102
    expect log a "selected main 127.0.0.1:19201"
    expect log a like "LB_FAILED for 10.0.0.9 *"
}
"#;

pub(super) static LIMIT: &str = r#"# limit.test: at most two requests of one address in ten seconds
config limit.toml

test "the third of three at once is slowed down, in whatever order" {
    together {
        client a from 10.0.0.9 to web
        client b from 10.0.0.9 to web
        client c from 10.0.0.9 to web
        client a sends "GET / HTTP/1.1\r\nHost: x\r\n\r\n"
        client b sends "GET / HTTP/1.1\r\nHost: x\r\n\r\n"
        client c sends "GET / HTTP/1.1\r\nHost: x\r\n\r\n"
    }
    expect row hits 10.0.0.9 3
    expect 1 of {a b c} get like "HTTP/1.0 429 *slow down"
    expect server a gets like *
    expect server b gets like *
    expect server c gets like *
}

test "ten seconds later it may come again" {
    client a from 10.0.0.9 to web
    client a sends "GET /a HTTP/1.1\r\nHost: www.x\r\n\r\n"
    expect client a gets like "*\r\nLocation: http://x/a\r\n*"
    expect row hits 10.0.0.9 1
    wait 10000
    expect row hits 10.0.0.9 none
}
"#;

pub(super) static RACE: &str =
    r#"# race.test: a counter by lookup and set, as many published rules have it
config race.toml

test "two of three come in" {
    together {
        client a from 10.0.0.9 to web
        client b from 10.0.0.9 to web
        client c from 10.0.0.9 to web
    }
    expect 2 of {a b c} get in
}
"#;
