//! One turn of a list or a map, and its end.

ghost use Rattle.std.specs.Prelude.{◌≡◌};

use dp_base::Seq;

/// What one turn of a list or a map gives: one more before a `,`, or the last one, if there is one, before the end.
#[derive(Drop)]
pub(crate) enum Step<T> {
    More(T),
    Last(Option<T>),
}

/// What was read in all turns. The room that was taken ahead of need is given back: a text may hold millions of lists
/// of one item.
pub(crate) fn fitted<T>(mut read: Vec<T>) -> Seq<T>
    ensures { result ≡ read.items }
{
    read.shrink_to_fit();
    Seq::of(read)
}
