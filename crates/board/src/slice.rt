//! Cells in a slice that the caller lends.

ghost use Rattle.std.specs.Prelude.{◌≡◌, ◌<◌, ◌≤◌, min, length, MatchResult, slice_set};
ghost use Rattle.board.specs.Boards.{most_cells};
ghost use Rattle.stops.specs.Stops.{stop_number};

use stops::Stop;

/// Of a longer slice of marks only so many are cells.
pub const MOST_CELLS: usize = 65536;

/// The number of cells in a slice of this length.
pub(crate) fn cells_in(len: usize) -> usize
    ensures { result ≡ min most_cells len }
{
    len.min(MOST_CELLS)
}

/// Where a cell lies in a slice of this length; stop 18 where there is no such cell.
pub(crate) fn index(len: usize, cell: u64) -> Result<usize, Stop>
    ensures { MatchResult result (λ at. (at ≡ cell) × (at < min most_cells len)) (λ s. (stop_number s ≡ 18) × (min most_cells len ≤ cell)) }
{
    match usize::try_from(cell) {
        Ok(at) if at < cells_in(len) => Ok(at),
        _ => Err(Stop::NoCell),
    }
}

/// Puts a value into a slice.
pub(crate) fn put<T: Copy>(slice: &mut [T], at: usize, value: T)
    requires { at < length slice.old }
    ensures { slice.new ≡ slice_set slice.old at value }
{
    slice[at] = value;
}
