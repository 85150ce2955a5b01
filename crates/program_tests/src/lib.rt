//! Tests of what the program calls, by public calls alone: words, the texts of faults, a file, a group's processes and
//! failed allocations.
#![tactic(auto)]

#[cfg(test)]
mod callers;
#[cfg(test)]
mod faults;
#[cfg(test)]
mod files;
#[cfg(test)]
mod growths;
#[cfg(test)]
mod streams;
#[cfg(test)]
mod words;
