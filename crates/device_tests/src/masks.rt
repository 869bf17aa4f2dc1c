//! Masks merged and counted at lengths round that of a vector.
use mask_lanes::{and_into, count_with, or_into};

#[test]
fn lists_of_masks_are_as_the_plain_loops_make_them(rt: HostRuntime) {
    let to: [u64; 9] = [1, 2, 4, 8, 0xff, 0, u64::MAX, 0xf0f0, 1 << 63];
    let from: [u64; 9] = [1, 1, 6, 0, 0xf00, 7, 0x1234, 0xff, 3];
    // A length, and how many of as many words of `from` have both of the lowest bits.
    for [len, with_both] in [[0, 0], [1, 0], [7, 1], [8, 2], [9, 3]] {
        let mut either = to;
        let mut both = to;
        or_into(&mut either[..len], &from[..len]);
        and_into(&mut both[..len], &from[..len]);
        let same = (0..9).all(|at| {
            let other = if at < len { from[at] } else { to[at] };
            either[at] == to[at] | other && both[at] == to[at] & other
        });
        assert!(rt;
            same && count_with(&from[..len], 3) == with_both,
            "at length {len}"
        );
    }
}
