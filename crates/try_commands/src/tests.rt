// What a user sees, over files, sinks, a net and a clock in memory. Each row of a static says what
// is run and what it must come to, and one test goes over all rows: a function that names a static
// costs no proof for what stands in it, where a test, a literal or a constant does.

mod made;
mod offline;
mod peers;
mod quiet;
mod requests;
mod served;
mod texts;
mod wanted;

/// Nothing, or what the first row is to show that does not come to what it must.
type Shown = Result<(), &'static str>;
