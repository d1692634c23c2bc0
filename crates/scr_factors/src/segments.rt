//! The correlations of the segments of non-life.

ghost use Rattle.std.specs.Prelude.{◌≡◌, ◌+◌, ◌-◌, ◌<◌, ◌≤◌, All, IfSome};
ghost use Rattle.std.specs.List.{find, range_with_len};
ghost use Rattle.scr_factors.specs.Forms as spec;
ghost use Rattle.scr_factors.specs.Forms.{differs};
ghost use Rattle.scr_factors.specs.Reading as reading;

use crate::Matrix;

type Rows = [[u32; 12]; 12];

// The first pair of segments, counted from 0, whose correlation is not the same in both directions.
pub(crate) fn first_asymmetry(rows: &Rows) -> Option<(usize, usize)>
    ensures value { result ≡ spec.first_asymmetry rows.now }
    ensures bound { IfSome result (λ pair. (pair.0 < 12) × (pair.1 < 12)) }
{
    for i in 0..12 {
        if let Some(j) = asymmetry_in_row(rows, i) {
            return Some((i, j));
        }
    }
    None
}

fn asymmetry_in_row(rows: &Rows, i: usize) -> Option<usize>
    requires { i < 12 }
    ensures value { result ≡ find (λ j. differs rows.now (i, j)) (range_with_len (i + 1) (11 - i)) }
    ensures bound { IfSome result (λ j. j < 12) }
{
    (i + 1..12).find(|&j| rows[i][j] != rows[j][i])
}

// The rows as a matrix of hundredths.
pub(crate) fn matrix_of(rows: &Rows) -> Matrix
    requires { All (All (λ n. n ≤ 100)) rows.now }
    ensures { result ≡ reading.matrix_of rows.now }
{
    let mut cells = [[0; 16]; 16];
    for i in 0..12 {
        cells[i] = padded(&rows[i]);
    }
    Matrix {
        n: 12,
        den: 100,
        cells,
    }
}

fn padded(row: &[u32; 12]) -> [i16; 16]
    requires { All (λ n. n ≤ 100) row.now }
    ensures { result ≡ reading.padded row.now }
{
    let mut cells = [0; 16];
    for i in 0..12 {
        cells[i] = row[i] as i16;
    }
    cells
}
