// Laws of a connection.

ghost use Rattle.conn.specs.Continues.{CallsContinue, ConnectionContinues};

/// Whatever may still come to a connection, its trace is what was given, and then what follows by
/// the connection's own fields; a body that has begun is ended by its frames.
pub fn connection_continues()
    ensures { ConnectionContinues }
{}

/// Each call keeps that: what a connection gives stands behind what it gave before.
pub fn calls_continue()
    ensures { CallsContinue }
{}
