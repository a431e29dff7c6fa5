//! An item that is kept.

use bk_pair::KeptTiling;

/// An item: the number of its line, and its canonical tiling.
#[derive(Drop)]
pub struct KeptItem {
    /// The number of its line, from 1.
    pub line: u64,
    /// Its canonical tiling.
    pub tiling: KeptTiling,
}
