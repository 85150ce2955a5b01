//! Tests from usage to the files of its charges, by public calls alone, and no code.
#![tactic(auto)]

#[cfg(test)]
mod callers;
#[cfg(test)]
mod devices;
#[cfg(test)]
mod files;
#[cfg(test)]
mod numbers;
#[cfg(test)]
mod records;
#[cfg(test)]
mod regions;
#[cfg(test)]
mod sheets;
#[cfg(test)]
mod stores;
