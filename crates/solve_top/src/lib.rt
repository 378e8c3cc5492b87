//! The program whole: from the words of the command line and the files to the lines printed and the status.
#![tactic(auto)]

mod causes;
mod checking;
mod files;
mod generating;
mod laws;
mod loading;
mod making;
mod program;
mod proving;
mod replaying;
mod texts;

pub use laws::one_model;
pub use program::run;
pub use solve_passes::{Status, run_out};
