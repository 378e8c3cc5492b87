//! Certificates of a search as texts: which lines one has, what the lines of a text say, and the lines written to a sink.
#![tactic(auto)]

mod ends;
mod heads;
mod held;
mod laws;
mod layers;
mod reading;
mod said;
mod words;
mod writing;

pub use ends::CertTextEnd;
pub use laws::{law_first_bad, law_nothing_else, law_read_back};
pub use reading::read_certificate;
pub use writing::{put_end, put_head, put_layer};
