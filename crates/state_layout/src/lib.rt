//! How a search keeps states and nodes: the layout of a model's states, packed states, and nodes.
#![tactic(auto)]

mod blank;
mod dominance;
mod draft;
mod flat;
mod keys;
mod laws;
mod layout;
mod merits;
mod node;
mod node_box;
mod packed;
mod packing;
mod reading;
mod sames;
mod unpacking;
mod words;
mod writing;

pub use draft::Draft;
pub use laws::law_signature;
pub use layout::{Layout, Slot};
pub use node::Node;
pub use node_box::NodeBox;
pub use packed::Packed;
pub use reading::{first_word, number_in, word_in};
