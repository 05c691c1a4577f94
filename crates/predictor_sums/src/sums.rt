// Local sums and differences (4.4, 4.5).
ghost use Rattle.std.specs.Prelude.{◌≡◌, false, [], ◌∷◌, ◌-◌, ◌^◌, ◌≤◌, min, length, nat_abs, ◌+ℤ◌, ◌*ℤ◌};
ghost use Rattle.predictor.specs.LocalSum.{two, local_sum};
ghost use Rattle.predictor.specs.Differences.{difference, directional, centrals_at};
ghost use Rattle.predictor.specs.SizeLaws.{Around};
ghost use Rattle.predictor.specs.Asks.{Sample, Differing, Differences, bands_of};
ghost use Rattle.predictor_sums.specs.Fetch.{neighbours_of, position_of};
ghost use Rattle.predictor_sums.specs.Asks.{Centre, centre, inside, Below, directions_of};

use super::neighbours::{Neighbours, Position, fetch, position_at};
use settings::Settings;

// Differences to the north, the west and the north-west.
#[derive(Clone, Copy)]
pub struct Directions {
    pub north: i32,
    pub west: i32,
    pub north_west: i32,
}

// How samples lie, in rows of nx and bands of area, and whether sums go by columns.
#[derive(Clone, Copy)]
pub struct Grid {
    pub nx: usize,
    pub area: usize,
    pub column: bool,
}

// A sample as often as it counts.
fn times(count: i32, sample: i32) -> i64
    ensures { result ≡ count *ℤ sample }
{
    (count as i64) * (sample as i64)
}

// The sum in the last column, which has no north-east neighbour.
fn last_column_sum(west: i32, corner: i32, north: i32) -> i64
    ensures { result ≡ west +ℤ corner +ℤ two north }
{
    (west as i64) + (corner as i64) + 2 * (north as i64)
}

// The sum in the first column, which has no neighbour to the west.
fn first_column_sum(north: i32, east: i32) -> i64
    ensures { result ≡ two (north +ℤ east) }
{
    2 * ((north as i64) + (east as i64))
}

// The sum of all four neighbours.
fn inside_sum(west: i32, corner: i32, north: i32, east: i32) -> i64
    ensures { result ≡ west +ℤ corner +ℤ north +ℤ east }
{
    (west as i64) + (corner as i64) + (north as i64) + (east as i64)
}

// The local sum of the neighbours of a place.
#[tactic(auto, unfolding(predictor::specs::LocalSum::local_sum))]
pub fn local_sum(column: bool, p: Position, n: Neighbours) -> i64
    ensures { result ≡ local_sum column (position_of p) (neighbours_of n) }
{
    if p.first_row {
        return times(4, n.west);
    }
    if column {
        return times(4, n.north);
    }
    if p.last_column {
        return last_column_sum(n.west, n.north_west, n.north);
    }
    if p.first_column {
        return first_column_sum(n.north, n.north_east);
    }
    inside_sum(n.west, n.north_west, n.north, n.north_east)
}

// Four times a sample less the local sum.
fn difference(sample: i32, sum: i64) -> i32
    requires { Sample sample × (nat_abs sum ≤ 2 ^ 18) }
    ensures { result ≡ difference sample sum }
{
    (4 * (sample as i64) - sum) as i32
}

// The directional differences of a place.
#[tactic(auto, unfolding(predictor::specs::Differences::directional))]
pub fn directional(p: Position, n: Neighbours, sum: i64) -> Directions
    requires { Around 65535 (neighbours_of n) × (nat_abs sum ≤ 2 ^ 18) }
    ensures { directions_of result ≡ directional (position_of p) (neighbours_of n) sum }
{
    if p.first_row {
        return Directions {
            north: 0,
            west: 0,
            north_west: 0,
        };
    }
    let north = difference(n.north, sum);
    if p.first_column {
        return Directions {
            north,
            west: north,
            north_west: north,
        };
    }
    Directions {
        north,
        west: difference(n.west, sum),
        north_west: difference(n.north_west, sum),
    }
}

// The central difference off the edges, where all neighbours are there and count alike.
fn inside_central(above: &[i32], north: usize, here: &[i32], at: usize) -> i32
    requires { Centre above.now north here.now at inside }
    ensures { result ≡ centre false above.now north here.now at inside }
{
    let sum = inside_sum(
        here[at - 1],
        above[north - 1],
        above[north],
        above[north + 1],
    );
    difference(here[at], sum)
}

// The central difference of the sample at `at` of its row, with the sample above it at `north`.
// Most samples lie off the edges: told apart first, they leave the loop over bands no other test.
pub fn central(
    above: &[i32],
    north: usize,
    here: &[i32],
    at: usize,
    position: Position,
    column: bool,
) -> i32
    requires { Centre above.now north here.now at (position_of position) }
    ensures { result ≡ centre column above.now north here.now at (position_of position) }
{
    if position.first_row | position.first_column | position.last_column | column {
        let around = fetch(above, north, here, at, position);
        let sum = local_sum(column, position, around);
        return difference(here[at], sum);
    }
    inside_central(above, north, here, at)
}

// The central differences of the bands before band z, as many as us has, nearest first.
fn centrals(image: &[i32], us: &mut [i32], grid: Grid, z: usize, t: usize, position: Position)
    requires { Below image.now (length us.old) grid z t (position_of position) }
    ensures { us.new ≡ centrals_at grid.nx grid.column (bands_of grid.area image.now) (length us.old) z t }
{
    let up = t.saturating_sub(grid.nx);
    for (i, u) in us.iter_mut().enumerate() {
        let base = (z - 1 - i) * grid.area;
        *u = central(image, base + up, image, base + t, position, grid.column);
    }
}

// The local sum at value t of band z, and the components into the first slots of us.
pub fn differences(s: Settings, image: &[i32], us: &mut [i32], z: usize, t: usize, x: usize) -> i64
    requires { Differing s image.now us.old z t x }
    ensures { Differences s image.now z t result us.new }
{
    let nx = s.image.nx as usize;
    let area = nx * (s.image.ny as usize);
    let column = s.predictor.column;
    let grid = Grid { nx, area, column };
    let position = position_at(t, x, nx);
    let base = z * area;
    let around = fetch(
        image,
        base + t.saturating_sub(nx),
        image,
        base + t,
        position,
    );
    let sum = local_sum(column, position, around);
    let behind = z.min(s.predictor.bands as usize);
    let reduced = s.predictor.reduced;
    if reduced {
        centrals(image, &mut us[..behind], grid, z, t, position);
        return sum;
    }
    let d = directional(position, around, sum);
    us[..3].copy_from_slice(&[d.north, d.west, d.north_west]);
    let end = 3 + behind;
    centrals(image, &mut us[3..end], grid, z, t, position);
    sum
}
