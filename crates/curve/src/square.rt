//! A cell within a square of the curve, one step in and one step out.
ghost use Rattle.std.specs.Prelude.{◌≡◌, ◌+◌, ◌*◌, ◌^◌, ◌<◌, ◌≤◌, Some};
ghost use Rattle.curve.specs.Hilbert.{cells, reflected as reflected_of, digit as digit_of, inner as inner_of, outer as outer_of, key_of, cell_of};
ghost use Rattle.curve.specs.Grid.{grid_cell, AtKey};
ghost use Rattle.curve.specs.Laws.{InSquare};

use crate::{Cell, ORDER};

// A cell of the square of a given order, whose side is 2 ^ order.
#[derive(Clone, Copy)]
struct SquareCell {
    order: u32,
    cell: Cell,
    ghost known: { order ≤ 12 },
    ghost inside: { InSquare (2 ^ order) cell },
}

// A cell of a quarter, reflected as the curve runs through the quarter with that digit.
fn reflected(side: u16, digit: u32, cell: Cell) -> Cell
    requires { (digit < 4) × InSquare side cell }
    ensures value { result ≡ reflected_of side digit cell.x cell.y }
    ensures inside { InSquare side result }
{
    let up = digit == 1 || digit == 2;
    let Cell { x, y } = if digit >= 2 && !up {
        Cell {
            x: side - 1 - cell.x,
            y: side - 1 - cell.y,
        }
    } else {
        cell
    };
    if !up {
        Cell { x: y, y: x }
    } else {
        Cell { x, y }
    }
}

impl SquareCell {
    // The side of the square.
    fn side(self) -> u16
        ensures value { result ≡ 2 ^ self.order }
        ensures bound { result ≤ 4096 }
    {
        1 << self.order
    }

    // The quarter in which the cell lies, and its inner cell there.
    fn split(self) -> (u32, SquareCell)
        requires { 0 < self.order }
        ensures order { result.1.order + 1 ≡ self.order }
        ensures digit { (result.0 ≡ digit_of (2 ^ result.1.order) self.cell) × (result.0 < 4) }
        ensures inner { result.1.cell ≡ inner_of (2 ^ result.1.order) self.cell }
    {
        let order = self.order - 1;
        let half: u16 = 1 << order;
        let Cell { x, y } = self.cell;
        let upper = u32::from(y >= half);
        let digit = if x < half { upper } else { 3 - upper };
        let within = Cell {
            x: x % half,
            y: y % half,
        };
        let cell = reflected(half, digit, within);
        (digit, SquareCell { order, cell })
    }

    // The cell of the next order's square that has this digit and this inner cell.
    fn outer(self, digit: u32) -> SquareCell
        requires { (self.order < 12) × (digit < 4) }
        ensures order { result.order ≡ self.order + 1 }
        ensures cell { result.cell ≡ outer_of (2 ^ self.order) digit self.cell }
    {
        let side = self.side();
        let Cell { x, y } = reflected(side, digit, self.cell);
        let cell = Cell {
            x: x + side * (digit / 2) as u16,
            y: y + side * u16::from(digit == 1 || digit == 2),
        };
        SquareCell {
            order: self.order + 1,
            cell,
        }
    }

    // The cell whose key has the upper digits `key`, `left` of them, and goes on with this cell's key, by recursion on the
    // digits left.
    fn reached(self, left: u32, key: u32) -> Cell
        requires { (left + self.order ≤ 12) × (key < cells left) }
        ensures { result ≡ cell_of (left + self.order) (key * cells self.order + key_of self.order self.cell) }
    {
        if left == 0 {
            return self.cell;
        }
        self.outer(key % 4).reached(left - 1, key / 4)
    }
}

// The key of order `order` of a cell, by recursion on the order.
pub(crate) fn key_at(order: u32, cell: Cell) -> u32
    requires { (order ≤ 12) × InSquare (2 ^ order) cell }
    ensures value { result ≡ key_of order cell }
    ensures below { result < cells order }
    ensures back { cell_of order result ≡ cell }
{
    if order == 0 {
        return 0;
    }
    let (digit, inner) = SquareCell { order, cell }.split();
    let side = inner.side() as u32;
    digit * (side * side) + key_at(inner.order, inner.cell)
}

// The cell of a key of order 12.
pub(crate) fn cell_at(key: u32) -> Cell
    requires { key < 16777216 }
    ensures value { Some result ≡ grid_cell key }
    ensures back { AtKey key result }
{
    let corner = SquareCell {
        order: 0,
        cell: Cell { x: 0, y: 0 },
    };
    corner.reached(ORDER, key)
}
