// The neighbours of a place by value (3.4), off whatever holds its row and the row above.
ghost use Rattle.std.specs.Prelude.{◌≡◌, false, cond, ◌-◌, ◌%◌, ◌<◌, ◌≤◌, length, get_or, pos};
ghost use Rattle.predictor.specs.LocalSum.{position_at};
ghost use Rattle.predictor_sums.specs.Fetch.{Fetching, fetched, neighbours_of, position_of};

// The samples before a place in the directions named; 0 where its position has none.
#[derive(Clone, Copy)]
pub struct Neighbours {
    pub north: i32,
    pub west: i32,
    pub north_west: i32,
    pub north_east: i32,
}

// Where a place stands: in the first row, the first column, the last column.
#[derive(Clone, Copy)]
pub struct Position {
    pub first_row: bool,
    pub first_column: bool,
    pub last_column: bool,
}

// Where place t, in column x of rows of nx samples, stands.
#[tactic(auto, unfolding(predictor::specs::LocalSum::position_at))]
pub fn position_at(t: usize, x: usize, nx: usize) -> Position
    requires { (x ≡ t % nx) × (0 < nx) }
    ensures { position_of result ≡ position_at nx t }
{
    Position {
        first_row: t < nx,
        first_column: x == 0,
        last_column: x + 1 == nx,
    }
}

// The sample so far back of an index, or 0 beyond an edge, where nothing is read.
fn within(samples: &[i32], at: usize, back: usize, beyond: bool) -> i32
    requires { beyond ≡ false → (back ≤ at) × (at - back < length samples.now) }
    ensures { result ≡ cond beyond (pos 0) (get_or samples.now (at - back) (pos 0)) }
{
    if beyond {
        return 0;
    }
    samples[at - back]
}

// The neighbours of the sample at `at` of its row, with the sample above it at `north`. Both rows may lie in the same slice. The rows
// and their indices are no struct: each of the two callers would build it for one call.
pub fn fetch(above: &[i32], north: usize, here: &[i32], at: usize, position: Position) -> Neighbours
    requires { Fetching above.now north here.now at (position_of position) }
    ensures { neighbours_of result ≡ fetched above.now north here.now at (position_of position) }
{
    let up = within(above, north, 0, position.first_row);
    let west = within(here, at, 1, position.first_column);
    let north_west = within(above, north, 1, position.first_row | position.first_column);
    let north_east = within(
        above,
        north + 1,
        0,
        position.first_row | position.last_column,
    );
    Neighbours {
        north: up,
        west,
        north_west,
        north_east,
    }
}
