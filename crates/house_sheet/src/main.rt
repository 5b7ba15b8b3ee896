// Plans a day in a house's own scale, by calls on the open problem, and prints the report.
#![tactic(auto)]

mod day;
mod sheet;

use day::day;
use layout::ProblemFault;
use sheet::{Sheet, sheet_of};
use std::io;

fn sheet_of_day() -> Result<Sheet, ProblemFault> {
    let mut problem = day()?;
    sheet_of(&mut problem)
}

fn main(rt: HostRuntime) -> io::Result<()> {
    match sheet_of_day() {
        Ok(sheet) => println!(rt; "{sheet}"),
        Err(fault) => println!(rt; "refused {}", fault.number()),
    }
}
