//! What a shard keeps of the letters that it took: the layer of each sender's unfinished group.

ghost use Rattle.std.specs.Prelude.{◌≡◌, ℕ, ◌+◌, ◌<◌, ◌↔◌, IsTrue, length, get_or, slice_set};

/// Whether each sender's mark of a layer was taken: its unfinished group is one of a later layer.
pub(crate) fn are_past(layers: &[u64], layer: u64) -> bool
    ensures { IsTrue result ↔ ((j : ℕ) → j < length layers.now → layer < get_or layers.now j 1) }
{
    for j in 0..layers.len() {
        if layers[j] <= layer {
            return false;
        }
    }
    true
}
