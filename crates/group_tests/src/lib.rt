//! Tests of a group, of its book and of its threads, by public calls alone.
#![tactic(auto)]

#[cfg(test)]
mod callers;
#[cfg(test)]
mod gates;
#[cfg(test)]
mod growths;
#[cfg(test)]
mod held;
#[cfg(test)]
mod kept;
#[cfg(test)]
mod limits;
#[cfg(test)]
mod logs;
#[cfg(test)]
mod packets;
#[cfg(test)]
mod revivals;
#[cfg(test)]
mod samples;
#[cfg(test)]
mod splits;
#[cfg(test)]
mod worlds;
