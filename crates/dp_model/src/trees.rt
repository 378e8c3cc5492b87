//! Expressions as trees: numbers, sets and conditions.

use dp_base::{Boxed, Seq};

/// An operation on two numbers. `Over` rounds toward zero, and `Rest` has the dividend's sign.
#[derive(Clone, Copy, Debug, PartialEq, Eq)]
pub enum NumOp {
    Plus,
    Minus,
    Times,
    Over,
    Rest,
    Most,
    Least,
}

/// An operation on two sets of one object type.
#[derive(Clone, Copy, Debug, PartialEq, Eq)]
pub enum SetOp {
    Union,
    Intersection,
    Difference,
}

/// A comparison of two numbers.
#[derive(Clone, Copy, Debug, PartialEq, Eq)]
pub enum Compare {
    Same,
    Other,
    Less,
    AtMost,
    More,
    AtLeast,
}

/// What a parameter ranges over: an object type, or the members of a set variable.
#[derive(Clone, Copy, Debug, PartialEq, Eq)]
pub enum Over {
    Object(u32),
    Members(u32),
}

/// An argument of a `sum` over a table: a number, or a set whose members it ranges over.
#[cycle(tree)]
#[derive(Debug, Drop)]
pub enum Arg {
    One(Num),
    Many(SetEx),
}

/// A number expression. A `u32` names a variable, a parameter or a table.
#[cycle(tree)]
#[derive(Debug, Drop)]
pub enum Num {
    Fixed(i64),
    Var(u32),
    Param(u32),
    /// A cell of a table, at these arguments.
    Cell(u32, Seq<Num>),
    /// The sum of a table's cells, over the members of each set argument.
    Sum(u32, Seq<Arg>),
    /// How many members a set has.
    Size(Boxed<SetEx>),
    Op(NumOp, Boxed<Num>, Boxed<Num>),
    If(Boxed<Cond>, Boxed<Num>, Boxed<Num>),
}

/// A set expression.
#[cycle(tree)]
#[derive(Debug, Drop)]
pub enum SetEx {
    Var(u32),
    Cell(u32, Seq<Num>),
    Op(SetOp, Boxed<SetEx>, Boxed<SetEx>),
    /// The members of the set's object type that it lacks.
    Not(Boxed<SetEx>),
    With(Boxed<Num>, Boxed<SetEx>),
    Without(Boxed<Num>, Boxed<SetEx>),
    If(Boxed<Cond>, Boxed<SetEx>, Boxed<SetEx>),
}

/// A condition.
#[cycle(tree)]
#[derive(Debug, Drop)]
pub enum Cond {
    Fixed(bool),
    Cell(u32, Seq<Num>),
    Numbers(Compare, Num, Num),
    SameSet(SetEx, SetEx),
    OtherSet(SetEx, SetEx),
    IsIn(Num, SetEx),
    Subset(SetEx, SetEx),
    Empty(SetEx),
    Not(Boxed<Cond>),
    And(Boxed<Cond>, Boxed<Cond>),
    Or(Boxed<Cond>, Boxed<Cond>),
    If(Boxed<Cond>, Boxed<Cond>, Boxed<Cond>),
    /// Holds where the condition holds for each choice of one more parameter.
    All(Over, Boxed<Cond>),
}
