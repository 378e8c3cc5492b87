//! What no clause says of single crates, tried apart from a search: the system's own devices, the printed lines, and that calls
//! which take memory succeed where it lasts.
#![tactic(auto)]

#[cfg(test)]
mod certificates;
#[cfg(test)]
mod growth;
#[cfg(test)]
mod outside;
#[cfg(test)]
mod report;
pub mod texts;
