//! Tables of risks that are not correlated.

use scr_profile::Matrix;

const CELLS: [[i16; 16]; 16] = [
    [1, 0, 0, 0, 0, 0, 0, 0, 0, 0, 0, 0, 0, 0, 0, 0],
    [0, 1, 0, 0, 0, 0, 0, 0, 0, 0, 0, 0, 0, 0, 0, 0],
    [0, 0, 1, 0, 0, 0, 0, 0, 0, 0, 0, 0, 0, 0, 0, 0],
    [0; 16],
    [0; 16],
    [0; 16],
    [0; 16],
    [0; 16],
    [0; 16],
    [0; 16],
    [0; 16],
    [0; 16],
    [0; 16],
    [0; 16],
    [0; 16],
    [0; 16],
];

/// Two risks.
pub(crate) const TWO: Matrix = Matrix {
    n: 2,
    den: 1,
    cells: CELLS,
};

/// Three risks.
pub(crate) const THREE: Matrix = Matrix {
    n: 3,
    den: 1,
    cells: CELLS,
};
