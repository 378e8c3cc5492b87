//! Certificates of exhausted searches: what one says, and what every one keeps. A certificate claims the verdict of a search
//! and lists the nodes that it kept, layer by layer.
#![tactic(auto)]

mod cert;
mod nodes;
mod parts;

pub use cert::Cert;
pub use nodes::{CertNode, CertStep};
pub use parts::CheckPart;
