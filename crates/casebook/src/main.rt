//! The worked cases: rosters and settings as data, what is asked of them, and the answers, printed a line each.
//! After them a recorded run, call by call.
#![tactic(auto)]

mod calls;
mod question;
mod run;
mod show;
mod table;

use question::ask;
use questions::Case;
use run::print_run;
use std::io;
use table::cases;

// Prints the table of cases.
// The loop of cases' main, over other questions: one function over both would ask something of the closure that asks them, as no public call does, and a trait for two programs would be no plainer.
fn print_cases(rt: &HostRuntime) -> io::Result<()> {
    for case in cases() {
        let asked = Case {
            answer: ask(case.question),
            ..case
        };
        println!(rt; "{asked}")?;
    }
    Ok(())
}

fn main(rt: HostRuntime) -> io::Result<()> {
    print_cases(&rt)?;
    print_run(&rt)
}
