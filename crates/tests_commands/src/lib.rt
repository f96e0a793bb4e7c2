//! Tests of the commands: words, worked calls, and each device call failing in turn.
//!
//! Each command through the top call over files and a sink in memory; `devices` has calls whose
//! words name one file too.
#![tactic(auto)]

#[cfg(test)]
mod charts;
#[cfg(test)]
mod commands;
#[cfg(test)]
mod devices;
#[cfg(test)]
mod earliest;
#[cfg(test)]
mod faults;
#[cfg(test)]
mod logs;
#[cfg(test)]
mod messages;
#[cfg(test)]
mod stops;
#[cfg(test)]
mod tables;
#[cfg(test)]
mod valve;
#[cfg(test)]
mod words;
