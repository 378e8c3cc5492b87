//! A certificate is checked: exactly where it shows its claim the check says yes, and else it names the first line that fails,
//! and why. What it stands on is told in README.md.
#![tactic(auto)]

mod checking;
mod clauses;
mod copies;
mod layers;
mod looker;
mod shares;
mod standings;
mod wants;

pub use cert_laws::{CertReason, Checked, law_checked, law_checked_in_part, law_parts, law_shown};
pub use checking::{check, check_part};
