//! Command lines for the tests, and the text of `help`.

use std::alloc::{AllocError, Global};

// The words of a command line, with a blank between each two.
pub(crate) fn words(alloc: Global, line: &str) -> Result<Vec<String>, AllocError> {
    let mut words = Vec::new(alloc);
    for word in line.split(' ') {
        words.push(String::from_str(alloc, word)?)?;
    }
    Ok(words)
}

// The text of `help`.
pub(crate) const HELP: &str = "usage: bouwkamp COMMAND [--NAME VALUE]...\n\
    check: test each code\n\
    canon: canonical code of each code\n\
    images: the eight images of each code\n\
    net: Smith diagram of each code\n\
    flow: currents of each network\n\
    word: word of each code\n\
    solve: code of each word\n\
    draw: drawing of each code\n\
    list --order N [--class CLASS] [--from WORD] [--limit K]: catalogue of an order\n\
    trial --seed S --count C: trial codes\n\
    dual: dual diagram of each code\n\
    verify --order N: hold a list against the catalogue\n\
    alike: group codes by size\n\
    pair [--kind KIND]: join rectangles to squares\n\
    help: this text\n";
