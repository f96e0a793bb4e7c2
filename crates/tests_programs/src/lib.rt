//! Tests of programs: worked runs and texts, programs as large as may be, loads and their logs.
//!
//! Through the top call over files and a sink in memory. `texts` and `parts` have both sides of each
//! rule of the language, `limits` programs at a limit and one past it, `loads` what `make` writes,
//! `replays` logs that are judged.
#![tactic(auto)]

#[cfg(test)]
mod bounds;
#[cfg(test)]
mod limits;
#[cfg(test)]
mod loads;
#[cfg(test)]
mod nesting;
#[cfg(test)]
mod parts;
#[cfg(test)]
mod replays;
#[cfg(test)]
mod runs;
#[cfg(test)]
mod texts;
#[cfg(test)]
mod worked;
