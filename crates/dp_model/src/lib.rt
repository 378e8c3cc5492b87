//! What a DyPDL model is: its types, and in `specs/` its costs, the value of an expression, when an expression is well
//! typed, and how large a model may be.
#![tactic(auto)]

mod answers;
mod parts;
mod steps;
mod trees;
mod whole;

pub use answers::{
    Cause, Claim, FaultAt, FaultKind, Found, Keep, Options, Reason, Spot, Verdict, Written,
};
pub use dp_base::{Boxed, Place, Seq, Text};
pub use parts::{
    BaseCase, Cells, Effect, Ground, JoinOp, ObjectType, PlainState, PlainValue, Preference,
    TableData, Transition, VarKind, Variable,
};
pub use steps::step_text;
pub use trees::{Arg, Compare, Cond, Num, NumOp, Over, SetEx, SetOp};
pub use whole::Model;
