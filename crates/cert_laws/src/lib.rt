//! What a certificate must show of a model, what follows where it shows it, and what the check of a certificate tells.
#![tactic(auto)]

mod answers;
mod laws;

pub use answers::{CertReason, Checked};
pub use laws::{law_checked, law_checked_in_part, law_parts, law_shown};
