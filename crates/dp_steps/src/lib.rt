//! What a DyPDL model means: in `specs/`, which states are allowed, base and inner, where a transition leads, and which
//! lists of transitions are legal, at which cost. There is no code here: crates above are proved against these
//! definitions.
#![tactic(auto)]
