//! The part of YAML that models are written in: a text's tree, or what it is refused for first.
#![tactic(auto)]

mod block;
mod block_below;
mod block_form;
mod block_list;
mod block_map;
mod block_scalar;
mod content;
mod flow;
mod header;
mod keys;
mod laws;
mod line_below;
mod marks;
mod opening;
mod plain;
mod points;
mod quoted;
mod reader;
mod text;
mod tree;
mod turns;

pub use laws::{one_reading, some_reading};
pub use text::read;
pub use tree::{Feature, Pair, Tree, YamlEnd};
