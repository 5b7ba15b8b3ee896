// The engine for programs in other languages: functions on numbers and slices that read a file, write one, and solve.
#![tactic(auto)]

mod numbers;
mod opening;
mod reading;
mod runs;
mod solves;
mod telling;
mod values;
mod ways;
mod writing;

pub use numbers::Figures;
