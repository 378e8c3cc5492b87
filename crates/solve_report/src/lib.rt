//! The lines that the program prints of solutions, passes, verdicts, refusals and models. A call takes no memory, and writes
//! each line at once where it is short. After a write that failed the sink has a front of the text.
#![tactic(auto)]

mod endings;
mod lines;
mod pieces;
mod refusals;
mod shows;
mod steps;
mod verdicts;

pub use endings::put_written;
pub use lines::{
    put_announced, put_bound, put_line, put_pass, put_pieces, put_searched, put_solution,
};
pub use pieces::Piece;
pub use refusals::{file_name, put_refusal};
pub use shows::put_show;
pub use steps::{put_step_behind, put_steps};
pub use verdicts::put_verdict;
