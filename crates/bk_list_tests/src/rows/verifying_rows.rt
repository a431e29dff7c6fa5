//! Rows of `bk_verify_report::verify`.

ghost use Rattle.std.specs.Prelude.{◌<◌, ◌≤◌};
ghost use Rattle.bk_word.specs.declared.TheConstants.{LARGEST_LISTED_ORDER};

use bk_ports::{Ended, MemSink, MemSource};
use bk_verify_report::verify;
use bk_walk::Walk;
use std::alloc::Global;

// A list, the read and the write that fail, how it ends and what is written.
type Row = (&'static str, u64, (u64, usize), Ended, &'static str);

// Whether a list that is held against the catalogue of an order, with a read and a write that fail, ends so and writes
// this.
fn is_verified(alloc: Global, order: u8, row: &Row) -> bool
    requires least { 2 ≤ order }
    requires most { order ≤ LARGEST_LISTED_ORDER }
{
    let (list, read, write, ended, report) = row;
    let reads = [*read];
    let mut source = MemSource::new(list.as_bytes(), 50, &reads);
    let mut room = [0; 1000];
    let writes = [*write];
    let mut out = MemSink::new(&mut room, &writes);
    verify::<Walk, _, _>(alloc, order, &mut source, &mut out) == *ended
        && out.written() == report.as_bytes()
}

// The number of no read, and where no write fails.
const NO_READ: u64 = u64::MAX;

const NO_WRITE: (u64, usize) = (u64::MAX, 0);

fn lists_and_reports_of_order_9() -> &'static [(&'static str, Ended, &'static str)] {
    &[
        (
            "9 33x32 [18,15][7,8][14,4][10,1][9] ; 2u.2aa.2ue.2eue.1e\n\
             9 69x61 [36,33][5,28][25,9,2][7][16] ; 2u.2aa.3uue.1ea.1ee\n\
             ; end order 9 listed 2\n",
            Ended::NoneRefused,
            "; end order 9 members 2 missing 0 foreign 0 repeated 0 refused 0\n",
        ),
        (
            "[18,15][7,8][14,4][10,1][9]\n[36,28][8,20][30,14][2,18][16]\n[1]\n[18,15][7,9]\n",
            Ended::SomeRefused,
            "line 2 repeats 1\nline 3 foreign\nline 4 no gap 2 15 16\n\
             missing 9 69x61 [36,33][5,28][25,9,2][7][16] ; 2u.2aa.3uue.1ea.1ee\n\
             ; end order 9 members 2 missing 1 foreign 1 repeated 1 refused 1\n",
        ),
        (
            "",
            Ended::SomeRefused,
            "missing 9 33x32 [18,15][7,8][14,4][10,1][9] ; 2u.2aa.2ue.2eue.1e\n\
             missing 9 69x61 [36,33][5,28][25,9,2][7][16] ; 2u.2aa.3uue.1ea.1ee\n\
             ; end order 9 members 2 missing 2 foreign 0 repeated 0 refused 0\n",
        ),
        (
            "\n; a comment\n[36,33][5,28][25,9,2][7][16]\n\n[15,18][8,7][4,14][1,10][9]\n[36,33][5,28][25,9,2][7][16]",
            Ended::SomeRefused,
            "line 6 repeats 3\n; end order 9 members 2 missing 0 foreign 0 repeated 1 refused 0\n",
        ),
        (
            "[6,4,5][3,1][6][5,1][4]\n[18,15][7,8][14,4][10,1][9]\n[36,33][5,28][25,9,2][7][16]\n",
            Ended::SomeRefused,
            "line 1 foreign\n; end order 9 members 2 missing 0 foreign 1 repeated 0 refused 0\n",
        ),
    ]
}

#[test]
fn lists_of_order_9(rt: HostRuntime) {
    for (list, ended, report) in lists_and_reports_of_order_9() {
        let row = (*list, NO_READ, NO_WRITE, *ended, *report);
        assert!(rt; is_verified(rt.alloc(), 9, &row), "{report}");
    }
}

const LIST_OF_10: &str = "[30,27][3,11,13][25,8][17,2][15]\n\
    [55,39][16,23][60,11][4,19][15][34]\n\
    [135,132,123][9,114][36,105][102,33][69]\n\
    [60,45][19,26][44,16][12,7][33][28]\n\
    [57,54][3,7,44][41,15,4][11][26]\n\
    [60,54][6,22,26][50,16][34,4][30]\n\
    [57,54][3,7,44][41,15,4][11][27]\n";

const REPORT_OF_10: &str = "line 6 repeats 1\nline 7 no gap 5 26 27\n\
    missing 10 65x47 [25,17,23][11,6][5,24][22,3][19] ; 3ua.2aue.2ue.2ea.1ee\n\
    ; end order 10 members 6 missing 1 foreign 0 repeated 1 refused 1\n";

const LIST_OF_8: &str = "[18,15][7,8][14,4][10,1][9]\n[1]\n[1,1][1,1][1,1][1,1]\n";

const REPORT_OF_8: &str = "line 1 foreign\nline 2 foreign\nline 3 foreign\n\
    ; end order 8 members 0 missing 0 foreign 3 repeated 0 refused 0\n";

// Of order 10 one member is missing, one turned, one scaled, one there twice and one broken; of order 8 there is none.
#[test]
fn other_orders(rt: HostRuntime) {
    let ten = (
        LIST_OF_10,
        NO_READ,
        NO_WRITE,
        Ended::SomeRefused,
        REPORT_OF_10,
    );
    assert!(rt; is_verified(rt.alloc(), 10, &ten));
    let eight = (
        LIST_OF_8,
        NO_READ,
        NO_WRITE,
        Ended::SomeRefused,
        REPORT_OF_8,
    );
    assert!(rt; is_verified(rt.alloc(), 8, &eight));
}

const FAILED: Ended = Ended::WriteFailed;

// The first, the second and the last write of a report fail, and a read after the first line.
fn rows_of_faults() -> &'static [(u64, (u64, usize), Ended, &'static str)] {
    &[
        (NO_READ, (0, 3), FAILED, "lin"),
        (NO_READ, (1, 0), FAILED, "line 1 foreign\n"),
        (
            NO_READ,
            (2, 9),
            FAILED,
            "line 1 foreign\nline 3 foreign\nmissing 9",
        ),
        (
            NO_READ,
            (3, 5),
            FAILED,
            "line 1 foreign\nline 3 foreign\n\
             missing 9 69x61 [36,33][5,28][25,9,2][7][16] ; 2u.2aa.3uue.1ea.1ee\n; end",
        ),
        (0, (9, 0), Ended::ReadFailed, ""),
        (
            1,
            (9, 0),
            Ended::ReadFailed,
            "line 1 foreign\nline 3 foreign\n",
        ),
    ]
}

#[test]
fn faults(rt: HostRuntime) {
    let list = "[1]\n[18,15][7,8][14,4][10,1][9]\n[1,1]\n";
    for (read, write, ended, report) in rows_of_faults() {
        let row = (list, *read, *write, *ended, *report);
        assert!(rt; is_verified(rt.alloc(), 9, &row), "{report}");
    }
}
