//! Cells of tables: what a text gives there is what an expression reads there.

ghost use Rattle.content_laws.specs.CellTexts.{LawDefaultCell, LawGivenCell};
ghost use Rattle.content_laws.specs.Places.{LawPlace};

/// The place that a text's key gets in its table is the place that an expression reads with the members that the key names.
pub fn places_agree()
    ensures { LawPlace }
{}

/// What a problem writes for a cell is what an expression reads there in every state; where nothing is written, it reads the
/// default that the domain gives with the table.
pub fn cells_are_read()
    ensures written { LawGivenCell }
    ensures left { LawDefaultCell }
{}
