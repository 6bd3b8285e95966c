//! Hilbert's curve at order 12: the key of a cell, the cell of a key, and cells compared by key.
#![tactic(auto)]

ghost use Rattle.std.specs.Prelude.{◌≡◌, ℕ};
ghost use Rattle.curve.specs.Grid.{grid_key, grid_cell, by_key, LeadsBack, OnCurve};
ghost use Rattle.curve.specs.Laws.{CurveLaws, KnownKeys};

mod square;

use square::{cell_at, key_at};
use std::cmp::Ordering;

/// The order of the curve.
pub const ORDER: u32 = 12;

/// The side of the grid: the numbers of a cell are below it.
pub const SIDE: u16 = 4096;

/// How many keys there are: keys are below it.
pub const KEYS: u32 = 16_777_216;

/// A cell, by its numbers; it lies on the grid where both are below `SIDE`.
#[derive(Clone, Copy, PartialEq, Eq, Debug)]
pub struct Cell {
    pub x: u16,
    pub y: u16,
}

/// The key of a cell, or `None` where it lies outside the grid.
pub fn key_of(cell: Cell) -> Option<u32>
    ensures value { result ≡ grid_key cell }
    ensures back { LeadsBack cell result }
{
    if cell.x < SIDE && cell.y < SIDE {
        Some(key_at(ORDER, cell))
    } else {
        None
    }
}

/// The cell of a key, or `None` where the key is too large.
pub fn cell_of(key: u32) -> Option<Cell>
    ensures value { result ≡ grid_cell key }
    ensures on_curve { OnCurve key result }
{
    if key < KEYS { Some(cell_at(key)) } else { None }
}

/// How two cells compare by key, or `None` where one lies outside the grid.
pub fn compare(a: Cell, b: Cell) -> Option<Ordering>
    ensures { result ≡ by_key a b }
{
    Some(key_of(a)?.cmp(&key_of(b)?))
}

/// The laws of the curve, for every order.
pub fn curve_laws()
    ensures { (m : ℕ) → CurveLaws m }
{}

/// Ten known keys are those of the definition.
pub fn known_keys()
    ensures { KnownKeys }
{}
