//! Numbers at which a growing interval stops: those of the model, so that a search comes to an end.

use dp_base::Seq;
use dp_model::{Cells, Model, PlainValue, TableData};
use honest_states::{Known, Mode};
use poly_terms::Span;
use std::alloc::{AllocError, Global};

/// How many stops there may be.
const STOPS: usize = 64;

/// How many numbers of tables are taken, evenly by their order.
const SAMPLES: usize = 16;

/// How many numbers of tables are looked at.
const NUMBERS: usize = 65_536;

fn add_stop(stops: &mut Vec<i64>, n: i64) -> Result<(), AllocError> {
    if stops.len() < STOPS && !stops.contains(&n) {
        stops.push(n)?;
    }
    Ok(())
}

fn add_stops(stops: &mut Vec<i64>, numbers: &[i64]) -> Result<(), AllocError> {
    for n in numbers {
        add_stop(stops, *n)?;
    }
    Ok(())
}

/// Adds some of these numbers, evenly by their places, and the last.
fn add_samples(stops: &mut Vec<i64>, numbers: &[i64]) -> Result<(), AllocError> {
    let step = (numbers.len() / SAMPLES).max(1);
    for (k, n) in numbers.iter().enumerate() {
        if k % step == 0 {
            add_stop(stops, *n)?;
        }
    }
    match numbers.last() {
        Some(n) => add_stop(stops, *n),
        None => Ok(()),
    }
}

/// Adds the number of a variable, if it holds one.
fn add_value(stops: &mut Vec<i64>, held: &PlainValue) -> Result<(), AllocError> {
    match held {
        PlainValue::Number(n) => add_stop(stops, *n),
        PlainValue::Members(_) => Ok(()),
    }
}

/// Adds the numbers of a table with so many arguments.
fn add_cells(
    numbers: &mut Vec<i64>,
    table: &TableData,
    arguments: usize,
) -> Result<(), AllocError> {
    match table.cells() {
        Cells::Numbers(cells) if table.args().list().len() == arguments => {
            if numbers.len() < NUMBERS {
                numbers.extend_from_slice(cells.list())?;
            }
            Ok(())
        }
        _ => Ok(()),
    }
}

/// The numbers of the first tables with so many arguments.
fn numbers_of(alloc: Global, model: &Model, arguments: usize) -> Result<Vec<i64>, AllocError> {
    let mut numbers = Vec::new(alloc);
    for table in model.tables().list() {
        add_cells(&mut numbers, table, arguments)?;
    }
    Ok(numbers)
}

/// 0, 1, the target's numbers, those of tables without arguments, and some of those of tables with one.
pub fn stops_of(alloc: Global, model: &Model) -> Result<Vec<i64>, AllocError> {
    let mut stops = Vec::new(alloc);
    add_stop(&mut stops, 0)?;
    add_stop(&mut stops, 1)?;
    for held in model.target().values().list() {
        add_value(&mut stops, held)?;
    }
    let single = numbers_of(alloc, model, 0)?;
    add_stops(&mut stops, &single)?;
    let mut cells = numbers_of(alloc, model, 1)?;
    cells.sort()?;
    add_samples(&mut stops, &cells)?;
    Ok(stops)
}

/// The greatest stop that is not above an end.
fn stop_below(stops: &[i64], low: i64) -> Option<i64> {
    let mut best = None;
    for stop in stops {
        if *stop <= low {
            best = match best {
                Some(other) => Some((*stop).max(other)),
                None => Some(*stop),
            };
        }
    }
    best
}

/// The least stop that is not below an end.
fn stop_above(stops: &[i64], high: i64) -> Option<i64> {
    let mut best = None;
    for stop in stops {
        if *stop >= high {
            best = match best {
                Some(other) => Some((*stop).min(other)),
                None => Some(*stop),
            };
        }
    }
    best
}

/// An interval whose ends that changed go on to a stop.
fn widened_span(stops: &[i64], old: Span, new: Span) -> Span {
    let low = match new.low {
        Some(low) if old.low != new.low => stop_below(stops, low),
        end => end,
    };
    let high = match new.high {
        Some(high) if old.high != new.high => stop_above(stops, high),
        end => end,
    };
    Span { low, high }
}

fn widened_known(
    alloc: Global,
    stops: &[i64],
    old: &Known,
    new: &Known,
) -> Result<Known, AllocError> {
    match (old, new) {
        (Known::Number(x), Known::Number(y)) => Ok(Known::Number(widened_span(stops, *x, *y))),
        (_, Known::Number(y)) => Ok(Known::Number(*y)),
        (_, Known::Members(members)) => {
            let mut same = Vec::new(alloc);
            for member in members.list() {
                same.push(*member)?;
            }
            Ok(Known::Members(Seq::of(same)))
        }
    }
}

/// A mode whose ends that changed go on to a stop.
pub fn widened(alloc: Global, stops: &[i64], old: &Mode, new: &Mode) -> Result<Mode, AllocError> {
    let mut known = Vec::new(alloc);
    for (x, y) in old.known.list().iter().zip(new.known.list()) {
        known.push(widened_known(alloc, stops, x, y)?)?;
    }
    Ok(Mode {
        known: Seq::of(known),
    })
}
