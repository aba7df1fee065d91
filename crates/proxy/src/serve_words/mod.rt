// The words of `serve` on the command line.

mod count;
mod given;
mod plain;
mod serve;
mod text;

pub use serve::{Serve, UsageFault, serve_of};
