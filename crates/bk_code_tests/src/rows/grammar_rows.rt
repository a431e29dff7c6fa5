//! Rows of `bk_grammar`.

use arrayvec::ArrayVec;
use bk_grammar::*;

// Bytes and the greatest number, behind one another.
#[test]
fn appended(rt: HostRuntime) {
    let mut line = ArrayVec::<u8, 30>::new();
    push_bytes(b"a ", &mut line);
    push_number(u64::MAX, &mut line);
    assert_eq!(rt; line.as_slice(), b"a 18446744073709551615".as_slice());
}
