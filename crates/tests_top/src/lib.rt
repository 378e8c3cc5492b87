//! What no clause says, tried over the whole solver: devices that fail in the middle of a run.
#![tactic(auto)]

#[cfg(test)]
mod devices;
#[cfg(test)]
mod texts;
