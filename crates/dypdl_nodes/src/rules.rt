//! The numbers of the rules that a model's texts may break.

/// A word that is no variable, table, object type or parameter.
pub const UNKNOWN_NAME: u8 = 30;
/// A number with a fraction, or a table or variable of such numbers.
pub const CONTINUOUS: u8 = 34;
/// More ground transitions than a model may have.
pub const TOO_MANY_GROUND: u8 = 35;
/// A map lacks a key that it must have.
pub const MISSING_KEY: u8 = 40;
/// A map has a key that it may not have.
pub const UNKNOWN_KEY: u8 = 41;
/// No whole number, or one outside the range of its place.
pub const BAD_NUMBER: u8 = 42;
/// A name that stands for something else, or a cell that is given twice.
pub const TWICE_NAME: u8 = 43;
/// No member of its object type.
pub const BAD_INDEX: u8 = 44;
/// A target that does not give each variable a value.
pub const BAD_TARGET: u8 = 45;
/// Costs that are joined by different operators.
pub const MIXED_COST: u8 = 46;
/// A model without base cases.
pub const NO_BASE: u8 = 48;
/// A list that is longer, or an object type or tables that are larger, than a model may have.
pub const TOO_MANY: u8 = 49;
/// A node of another form, or another word, than its place wants.
pub const WRONG_SHAPE: u8 = 50;
/// What is no name.
pub const BAD_NAME: u8 = 51;
/// A part of the language that this project leaves out.
pub const LEFT_OUT: u8 = 52;
