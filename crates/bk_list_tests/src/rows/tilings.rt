//! Tilings for the rows, by their codes.

use bk_profile::lay_code;
use bk_text::{Line, read_line};
use bk_tiling::Tiling;
use std::process::Abort;

// The tiling that has the code in a line, if there is one.
fn laid(line: &str) -> Option<Tiling> {
    match read_line(line.as_bytes()) {
        Ok(Line::Item { code, .. }) if 0 < code.groups() => lay_code(&code).ok(),
        _ => None,
    }
}

/// The tiling that has the code in a line.
pub(crate) fn tiling(rt: &impl Abort, line: &str) -> Tiling {
    laid(line).expect(rt, "it is laid")
}
