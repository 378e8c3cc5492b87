//! Certificates are made: a search of its own, on one thread and layer by layer, keeps every node that is not covered and prunes
//! by the claim. Each layer is written as it closes. A yes of the checker rests on nothing of this crate.
#![tactic(auto)]

mod claims;
mod ends;
mod layers;
mod letters;
mod nodes;
mod progress;
mod putting;
mod searching;
mod stops;
mod visits;

pub use dp_model::{Claim, Found, Written};
pub use ends::CertEnd;
pub use putting::put_certificate;
