//! The functions that the benchmark under bench/ calls from Rust.
#![tactic(auto)]

ghost use Rattle.std.specs.Prelude.{◌≡◌};
ghost use Rattle.curve.specs.Hilbert.{cell as cell_xy};
ghost use Rattle.curve.specs.Grid.{grid_key, grid_cell};
ghost use Rattle.bench_exports.specs.Packed.{packed_key, packed_cell};

use curve::Cell;

/// The key of a cell, or `u32::MAX`.
#[unsafe(no_mangle)]
pub extern "C" fn device_curve_key(x: u16, y: u16) -> u32
    ensures { result ≡ packed_key (grid_key (cell_xy x y)) }
{
    curve::key_of(Cell { x, y }).unwrap_or(u32::MAX)
}

/// The cell of a key, packed, or `u32::MAX`.
#[unsafe(no_mangle)]
pub extern "C" fn device_curve_cell(key: u32) -> u32
    ensures { result ≡ packed_cell (grid_cell key) }
{
    curve::cell_of(key).map_or(u32::MAX, |cell| cell.x as u32 + 65536 * cell.y as u32)
}
