//! Trial codes of some seeds.

use bk_code::flat;
use bk_gen::*;

// Seed, place, and the order and the greatest side of each code.
#[test]
fn samples(rt: HostRuntime) {
    for (seed, k, order, greatest) in [
        (0, 0, 200, 32),
        (0, 1, 72, 679_644_717_624_151),
        (1, 0, 72, 679_644_717_624_151),
        (u64::MAX, 0, 74, 899_502_690_986_939),
        (u64::MAX, 1, 200, 32),
    ] {
        let code = sample(seed, k);
        let sides = flat(&code);
        assert_eq!(rt; sides.len(), order);
        assert_eq!(rt; sides.iter().copied().max(), Some(greatest));
    }
}
