//! Rows of `bk_text`.

use arrayvec::ArrayVec;
use bk_code::Code;
use bk_text::*;
use std::process::Abort;
use std::test::Fail;

// A line that states a code, the order and the size that it states, and the code as it is written.
type CodeRow = (&'static str, Option<u64>, Option<(u64, u64)>, &'static str);

static CODES: [CodeRow; 4] = [
    ("33x32 [18,15][7,8]", None, Some((33, 32)), "[18,15][7,8]"),
    ("9 (36,33)(5,28) ; note ]", Some(9), None, "[36,33][5,28]"),
    (
        " 10 33x32[ 50, 35 ] , (8)\t[2];",
        Some(10),
        Some((33, 32)),
        "[50,35][8][2]",
    ),
    (
        "999999999999999999 [999999999999999]\r",
        Some(999_999_999_999_999_999),
        None,
        "[999999999999999]",
    ),
];

fn rows_of_codes() -> &'static [CodeRow] {
    &CODES
}

// Whether a code is written so.
fn is_written(code: &Code, written: &str) -> bool {
    if code.groups() == 0 {
        return false;
    }
    let mut line = ArrayVec::new();
    write_code(code, &mut line);
    line.as_slice() == written.as_bytes()
}

// Whether a line states what its row says.
fn states(row: &CodeRow) -> bool {
    let (text, order, size, written) = row;
    match read_line(text.as_bytes()) {
        Ok(
            Line::Item {
                order: found,
                size: found_size,
                code,
            },
        ) => found == *order && found_size == *size && is_written(&code, written),
        _ => false,
    }
}

// Whether nothing is read in a line.
fn is_skipped(text: &str) -> bool {
    matches!(read_line(text.as_bytes()), Ok(Line::Skip))
}

#[test]
fn codes(rt: HostRuntime) {
    for row in rows_of_codes() {
        let text = row.0;
        assert!(rt; states(row), "{text}");
    }
    for text in ["", " \t\r", "; [1", "  ;"] {
        assert!(rt; is_skipped(text), "{text}");
    }
}

// A table row, the order, the width and the height in it, and its sides.
type TableRow = (&'static str, u64, u64, u64, &'static [u64]);

static TABLE_ROWS: [TableRow; 2] = [
    (
        "9 33 32 18 15 7 8 14 4 10 1 9",
        9,
        33,
        32,
        &[18, 15, 7, 8, 14, 4, 10, 1, 9],
    ),
    (" 1\t1  1 1 ; one", 1, 1, 1, &[1]),
];

fn rows_of_tables() -> &'static [TableRow] {
    &TABLE_ROWS
}

// Whether a line is read as the table row.
fn is_table_row(row: &TableRow) -> bool {
    let (text, order, width, height, sides) = row;
    match read_line(text.as_bytes()) {
        Ok(
            Line::Flat {
                order: found,
                width: found_width,
                height: found_height,
                sides: column,
            },
        ) => {
            found == *order
                && found_width == *width
                && found_height == *height
                && column.as_slice() == *sides
        }
        _ => false,
    }
}

#[test]
fn table_rows(rt: HostRuntime) {
    for row in rows_of_tables() {
        let text = row.0;
        assert!(rt; is_table_row(row), "{text}");
    }
}

fn expect_at(rt: &impl Abort, bytes: &[u8], at: usize) {
    match read_line(bytes) {
        Err(TextFault::Text { at: found }) => assert_eq!(rt; found, at),
        _ => panic!(rt; "no line"),
    }
}

// Where bytes leave the grammar.
#[test]
fn places(rt: HostRuntime) {
    let rows = [
        ("[18,,15]", 4),
        ("[]", 1),
        ("33x32", 5),
        ("[18 ;", 4),
        ("[18)", 3),
        ("0x5 [1]", 0),
        ("[1],,[1]", 4),
        ("[1234567890123456]", 16),
        ("9 33 32", 7),
        ("9 33 32 1x", 9),
        ("9 33x32 ;", 8),
        ("[1] 9", 4),
    ];
    for (text, at) in rows {
        expect_at(&rt, text.as_bytes(), at);
    }
    expect_at(&rt, &[b'['; 8192], 1);
    expect_at(&rt, &[b'1'; 8192], 18);
}

// Lines with as many sides as may be, and with more.
#[test]
fn many_sides(rt: HostRuntime) -> Result<(), Fail> {
    let mut line = Vec::from_slice(rt.alloc(), b"[1")?;
    for _ in 0..199 {
        line.extend_from_slice(b",1")?;
    }
    let mut full = line.clone()?;
    full.extend_from_slice(b"]")?;
    assert!(rt; matches!(read_line(&full), Ok(Line::Item { .. })));
    full.extend_from_slice(b"[1]")?;
    assert!(rt; matches!(read_line(&full), Err(TextFault::Many)));
    for _ in 0..101 {
        line.extend_from_slice(b",1")?;
    }
    expect_at(&rt, &line, 602);
    line.extend_from_slice(b"]")?;
    assert!(rt; matches!(read_line(&line), Err(TextFault::Many)));
    Ok(())
}

// A size is written, and each refusal shows its name.
#[test]
fn texts(rt: HostRuntime) -> Result<(), Fail> {
    let mut line = ArrayVec::new();
    write_size(33, 32, &mut line);
    assert_eq!(rt; line.as_slice(), b"33x32".as_slice());
    assert_eq!(rt;
        format!(in rt.alloc(); "{}", TextFault::Many)?.as_str(),
        "Many"
    );
    assert_eq!(rt;
        format!(in rt.alloc(); "{}", TextFault::Text { at: 3 })?.as_str(),
        "Text"
    );
    Ok(())
}
