//! The examples of `examples/`, and those of the tour in README with its tables.

use super::command_runs::{Row, expect_rows};

// The folders of `examples/`: what is read, and what is written.
fn rows_of_folders() -> &'static [Row] {
    &[
        (
            "check",
            "; rectangles from the literature, each in another spelling\n\
             33x32 [18,15][7,8][14,4][10,1][9]\n\
             (36,33)(5,28)(25,9,2)(7)(16)\n\
             [50, 35, 27], [8, 19], [15, 17, 11], [6, 24], [29, 25, 9, 2], [7, 18], [16], [42], [4, 37], [33]\n\
             9 33 32 18 15 7 8 14 4 10 1 9\n\
             \n\
             ; imperfect and compound ones\n\
             [1]\n\
             [1][1]\n\
             [1,1][1,1]\n\
             3 3x2 [2,1][1]\n",
            0,
            "ok 9 33x32 perfect simple\n\
             ok 9 69x61 perfect simple\n\
             ok 21 112x112 perfect simple\n\
             ok 9 33x32 perfect simple\n\
             ok 1 1x1 perfect simple\n\
             ok 2 1x2 imperfect 1 simple\n\
             ok 4 2x2 imperfect 1 compound 0,0 2x1\n\
             ok 3 3x2 imperfect 1 compound 2,0 1x2\n",
        ),
        (
            "check",
            "[18,15][7,9]\n\
             [18,15][7,8][14,4][10,1]\n\
             32x33 [18,15][7,8][14,4][10,1][9]\n\
             10 33x32 [18,15][7,8][14,4][10,1][9]\n\
             [18,,15]\n\
             [18)\n\
             [1234567890123456]\n\
             7 33 32 18 15 7 8 14 4 10\n\
             9 33 31 18 15 7 8 14 4 10 1 9\n",
            1,
            "no gap 2 15 16\n\
             no open 23 32\n\
             no size 33x32\n\
             no order 9\n\
             no text 4\n\
             no text 3\n\
             no text 16\n\
             no gap 4 11 10\n\
             no size 33x32\n",
        ),
        (
            "canon",
            "[36,28][8,20][30,14][2,18][16]\n\
             33x32 [18,15][7,8][14,4][10,1][9]\n\
             9 33 32 18 15 7 8 14 4 10 1 9\n",
            0,
            "33x32 [18,15][7,8][14,4][10,1][9]\n\
             33x32 [18,15][7,8][14,4][10,1][9]\n\
             33x32 [18,15][7,8][14,4][10,1][9]\n",
        ),
        (
            "images",
            "[2,1][1]\n",
            0,
            "3x2 [2,1][1]\n\
             3x2 [1,2][1]\n\
             3x2 [2,1][1]\n\
             3x2 [1,2][1]\n\
             2x3 [2][1,1]\n\
             2x3 [2][1,1]\n\
             2x3 [1,1][2]\n\
             2x3 [1,1][2]\n",
        ),
        (
            "net",
            "[18,15][7,8][14,4][10,1][9]\n\
             [1,1][1,1]\n\
             [1]\n",
            0,
            "6 0-2 0-1 1-3 1-4 2-5 2-3 3-5 3-4 4-5 ; 33 18 15 7 8 14 4 10 1 9\n\
             3 0-1 0-1 1-2 1-2 ; 2 1 1 1 1\n\
             2 0-1 ; 1 1\n",
        ),
        (
            "dual",
            "[18,15][7,8][14,4][10,1][9]\n\
             [1,1][1,1]\n",
            0,
            "6 0-2 0-1 1-2 1-3 2-5 2-4 3-4 3-5 4-5 ; 32 18 14 4 10 15 7 1 9 8 ; 1 5 6 7 2 3 8 9 4 ; 0\n\
             3 0-1 0-1 1-2 1-2 ; 2 1 1 1 1 ; 1 3 2 4 ; 1\n",
        ),
        (
            "flow",
            "6 0-2 0-1 1-3 1-4 2-5 2-3 3-5 3-4 4-5 ; 33 18 15 7 8 14 4 10 1 9\n\
             4 0-1 0-2 1-2 1-3 2-3\n\
             2 1-0\n\
             4 0-1 2-3\n",
            1,
            "33 18 15 7 8 14 4 10 1 9\n\
             2 1 1 0 1 1\n\
             1 -1\n\
             no loose 0\n",
        ),
        (
            "word",
            "[25,17,23][11,6][5,24][22,3][19]\n\
             [18,15][7,8][14,4][10,1][9]\n\
             [1,1][1,1]\n\
             [1]\n",
            0,
            "3ua.2aue.2ue.2ea.1ee\n\
             2u.2aa.2ue.2eue.1e\n\
             2e.2e\n\
             1\n",
        ),
        (
            "solve",
            "2u.2eu.1e\n\
             2e.2e\n\
             3ua.2aue.2ue.2ea.1ee\n\
             2u.2ea.1e\n\
             2u.2eu\n",
            1,
            "8x5 [5,3][2,1][1]\n\
             2x2 [1,1][1,1]\n\
             65x47 [25,17,23][11,6][5,24][22,3][19]\n\
             none\n\
             unfinished\n",
        ),
        (
            "draw",
            "[2,1][1]\n\
             [401]\n",
            1,
            "+-++\n\
             | ++\n\
             +-++\n\
             no large\n",
        ),
        (
            "list --order 9",
            "",
            0,
            "9 33x32 [18,15][7,8][14,4][10,1][9] ; 2u.2aa.2ue.2eue.1e\n\
             9 69x61 [36,33][5,28][25,9,2][7][16] ; 2u.2aa.3uue.1ea.1ee\n\
             ; end order 9 listed 2\n",
        ),
        (
            "trial --seed 0 --count 2",
            "",
            0,
            "trial seed 0 count 2 ok 2 perfect 1 simple 0 squares 272\n",
        ),
    ]
}

#[test]
fn folders(rt: HostRuntime) {
    expect_rows(&rt, rt.alloc(), 50, rows_of_folders());
}

// The blocks of the tour, and the examples of the tables of lines and of refusals.
fn rows_of_the_tour() -> &'static [Row] {
    &[
        (
            "check",
            "[18,15][7,8][14,4][10,1][9]\n",
            0,
            "ok 9 33x32 perfect simple\n",
        ),
        (
            "canon",
            "[18,15][7,8][14,4][10,1][9]\n",
            0,
            "33x32 [18,15][7,8][14,4][10,1][9]\n",
        ),
        (
            "net",
            "[18,15][7,8][14,4][10,1][9]\n",
            0,
            "6 0-2 0-1 1-3 1-4 2-5 2-3 3-5 3-4 4-5 ; 33 18 15 7 8 14 4 10 1 9\n",
        ),
        (
            "dual",
            "[18,15][7,8][14,4][10,1][9]\n",
            0,
            "6 0-2 0-1 1-2 1-3 2-5 2-4 3-4 3-5 4-5 ; 32 18 14 4 10 15 7 1 9 8 ; 1 5 6 7 2 3 8 9 4 ; 0\n",
        ),
        (
            "word",
            "[18,15][7,8][14,4][10,1][9]\n",
            0,
            "2u.2aa.2ue.2eue.1e\n",
        ),
        (
            "draw",
            "[2,1][1]\n",
            0,
            "+-++\n\
             | ++\n\
             +-++\n",
        ),
        ("flow", "4 0-1 0-2 1-2 1-3 2-3\n", 0, "2 1 1 0 1 1\n"),
        (
            "solve",
            "2u.2aa.2ue.2eue.1e\n",
            0,
            "33x32 [18,15][7,8][14,4][10,1][9]\n",
        ),
        (
            "list --order 9 --limit 1",
            "",
            0,
            "9 33x32 [18,15][7,8][14,4][10,1][9] ; 2u.2aa.2ue.2eue.1e\n\
             ; limit order 9 listed 1\n",
        ),
        (
            "list --order 9 --from 2u.2aa.2ue.2eue.1e",
            "",
            0,
            "9 69x61 [36,33][5,28][25,9,2][7][16] ; 2u.2aa.3uue.1ea.1ee\n\
             ; end order 9 listed 1\n",
        ),
        (
            "verify --order 9",
            "[18,15][7,8][14,4][10,1][9]\n\
             [36,28][8,20][30,14][2,18][16]\n\
             [1]\n",
            1,
            "line 2 repeats 1\n\
             line 3 foreign\n\
             missing 9 69x61 [36,33][5,28][25,9,2][7][16] ; 2u.2aa.3uue.1ea.1ee\n\
             ; end order 9 members 2 missing 1 foreign 1 repeated 1 refused 0\n",
        ),
        (
            "alike",
            "[2,1][1]\n\
             [1]\n\
             [2][1,1]\n",
            0,
            "3x2 2\n\
             1 [2,1][1]\n\
             3 [2,1][1]\n\
             1x1 1\n\
             2 [1]\n\
             ; groups 2 items 3 refused 0\n",
        ),
        (
            "pair --kind any",
            "[2,1][1]\n\
             [1,2][1]\n",
            0,
            "1 2 5x5 [2,1,2][1][3,2][1,1]\n\
             ; pairs 1 items 2 refused 0\n",
        ),
        (
            "check",
            "9 33 32 18 15 7 8 14 4 10 1 9\n\
             3 3x2 [2,1][1] ; a comment\n",
            0,
            "ok 9 33x32 perfect simple\n\
             ok 3 3x2 imperfect 1 compound 2,0 1x2\n",
        ),
        (
            "check",
            "[18,,15]\n\
             10 [1]\n\
             [18,15][7,9]\n\
             [2,1]\n\
             2x2 [1]\n",
            1,
            "no text 4\n\
             no order 1\n\
             no gap 2 15 16\n\
             no open 1 2\n\
             no size 1x1\n",
        ),
        ("draw", "[401]\n", 1, "no large\n"),
        (
            "flow",
            "1\n\
             3 0-1 1-3\n\
             4 0-1 2-3\n",
            1,
            "no nodes 1\n\
             no wire 2\n\
             no loose 0\n",
        ),
        (
            "solve",
            "2uu\n\
             2u.2eu\n\
             2u.2ea.1e\n",
            1,
            "illegal 1\n\
             unfinished\n\
             none\n",
        ),
    ]
}

#[test]
fn tour(rt: HostRuntime) {
    expect_rows(&rt, rt.alloc(), 50, rows_of_the_tour());
}
