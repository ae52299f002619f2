//! The worked cases: rosters and settings as data, what is asked of them, and the answers, printed a line each.
#![tactic(auto)]

use questions::{Case, ask, cases};
use std::io;

// The loop of casebook's print_cases: one function over both would ask something of the closure that asks, as no public call does, and a trait for two programs would be no plainer.
fn main(rt: HostRuntime) -> io::Result<()> {
    for case in cases() {
        let asked = Case {
            answer: ask(case.question),
            ..case
        };
        println!(rt; "{asked}")?;
    }
    Ok(())
}
