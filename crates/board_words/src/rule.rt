//! The rule that the words and all views keep, and the kinds of step, for the proofs alone.
use crate::seat::View;
use atomic_table::{Join, Play, Split, TableRule};

/// The rule of a board with a given opening word and limit.
pub struct Words;

impl TableRule<(), View, (u64, u64)> for Words {
    ghost use Rattle.board_words.specs.Rules.{Kept, new_view, whole_part};

    ghost holds = { Kept };

    ghost first = { λ key. new_view whole_part key.0 key.1 key.0 };
}

/// Loads the best word.
pub struct Look;

impl Play<(), View> for Look {
    ghost use Rattle.board_words.specs.Steps.{Looks};

    ghost then = { Looks };
}

/// Lowers the best word.
pub struct Offer;

impl Play<(), View> for Offer {
    ghost use Rattle.board_words.specs.Steps.{Offers};

    ghost then = { Offers };
}

/// Adds one visit.
pub struct Draw;

impl Play<(), View> for Draw {
    ghost use Rattle.board_words.specs.Steps.{Draws};

    ghost then = { Draws };
}

/// Raises the halt word.
pub struct Raise;

impl Play<(), View> for Raise {
    ghost use Rattle.board_words.specs.Steps.{Raises};

    ghost then = { Raises };
}

/// Loads the halt word.
pub struct Meet;

impl Play<(), View> for Meet {
    ghost use Rattle.board_words.specs.Steps.{Meets};

    ghost then = { Meets };
}

/// Loads the best word for the totals.
pub struct TellBest;

impl Play<(), View> for TellBest {
    ghost use Rattle.board_words.specs.Steps.{TellsBest};

    ghost then = { TellsBest };
}

/// Loads the number of visits for the totals.
pub struct TellDrawn;

impl Play<(), View> for TellDrawn {
    ghost use Rattle.board_words.specs.Steps.{TellsDrawn};

    ghost then = { TellsDrawn };
}

/// Loads the halt word for the totals.
pub struct TellCause;

impl Play<(), View> for TellCause {
    ghost use Rattle.board_words.specs.Steps.{TellsCause};

    ghost then = { TellsCause };
}

/// Moves one part to a new seat.
pub struct Part;

impl Split<View> for Part {
    ghost use Rattle.board_words.specs.Steps.{after_split, split_view};

    ghost left = { after_split };

    ghost right = { split_view };
}

/// Puts two seats together.
pub struct Unite;

impl Join<View> for Unite {
    ghost use Rattle.board_words.specs.Rules.{spent_view};
    ghost use Rattle.board_words.specs.Steps.{after_join};

    ghost both = { after_join };

    ghost spent = { spent_view };
}
