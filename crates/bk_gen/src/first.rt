//! The rectangles to start with.

ghost use Rattle.std.specs.Prelude.{◌≡◌};
ghost use Rattle.bk_gen.specs.TrialCodes.{first_rectangle};

use crate::growing::Growing;
use bk_tiling::Square;

// 33 by 32: [18,15][7,8][14,4][10,1][9].
const NINE_IN_33X32: [Square; 9] = [
    Square { x: 0, y: 0, s: 18 },
    Square { x: 18, y: 0, s: 15 },
    Square { x: 18, y: 15, s: 7 },
    Square { x: 25, y: 15, s: 8 },
    Square { x: 0, y: 18, s: 14 },
    Square { x: 14, y: 18, s: 4 },
    Square {
        x: 14,
        y: 22,
        s: 10,
    },
    Square { x: 24, y: 22, s: 1 },
    Square { x: 24, y: 23, s: 9 },
];

// 69 by 61: [36,33][5,28][25,9,2][7][16].
const NINE_IN_69X61: [Square; 9] = [
    Square { x: 0, y: 0, s: 36 },
    Square { x: 36, y: 0, s: 33 },
    Square { x: 36, y: 33, s: 5 },
    Square {
        x: 41,
        y: 33,
        s: 28,
    },
    Square { x: 0, y: 36, s: 25 },
    Square { x: 25, y: 36, s: 9 },
    Square { x: 34, y: 36, s: 2 },
    Square { x: 34, y: 38, s: 7 },
    Square {
        x: 25,
        y: 45,
        s: 16,
    },
];

// 65 by 47: [25,17,23][11,6][5,24][22,3][19].
const TEN_IN_65X47: [Square; 10] = [
    Square { x: 0, y: 0, s: 25 },
    Square { x: 25, y: 0, s: 17 },
    Square { x: 42, y: 0, s: 23 },
    Square {
        x: 25,
        y: 17,
        s: 11,
    },
    Square { x: 36, y: 17, s: 6 },
    Square { x: 36, y: 23, s: 5 },
    Square {
        x: 41,
        y: 23,
        s: 24,
    },
    Square { x: 0, y: 25, s: 22 },
    Square { x: 22, y: 25, s: 3 },
    Square {
        x: 22,
        y: 28,
        s: 19,
    },
];

// The rectangle to start with, by the number modulo 3.
pub(crate) fn first_rectangle(v: u64) -> Growing
    ensures { result ≡ first_rectangle v }
{
    match v % 3 {
        0 => Growing::of(33, 32, &NINE_IN_33X32),
        1 => Growing::of(69, 61, &NINE_IN_69X61),
        _ => Growing::of(65, 47, &TEN_IN_65X47),
    }
}
