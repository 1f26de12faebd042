//! Texts of a round's sizes, on both sides of each limit.
use super::same;
use command_line::{Sizes, read_sizes};
use std::test::Fail;

/// Texts that are read, and their numbers.
static READ: [(&str, (u64, u64, u64)); 6] = [
    ("1 0 0\n", (1, 0, 0)),
    ("2 3 4\n", (2, 3, 4)),
    ("4 65536 1048576\n", (4, 65_536, 1_048_576)),
    ("10 100 1000\n", (10, 100, 1_000)),
    ("64 268435456 0\n", (64, 268_435_456, 0)),
    ("64 9 268435456\n", (64, 9, 268_435_456)),
];

#[test]
fn three_numbers_are_sizes(rt: HostRuntime) -> Result<(), Fail> {
    for &(text, (streams, lines, room)) in &READ {
        let sizes = Sizes {
            streams,
            lines,
            room,
        };
        same(
            &rt,
            (text, read_sizes(text.as_bytes())),
            (text, Some(sizes)),
        );
    }
    Ok(())
}

/// Texts with a number out of its range. Truncated to 64 bits, 18446744073709551617 would be 1.
static OUT_OF_RANGE: [&str; 7] = [
    "0 0 0\n",
    "65 0 0\n",
    "1 268435457 0\n",
    "1 0 268435457\n",
    "18446744073709551617 0 0\n",
    "1 18446744073709551617 0\n",
    "1 0 18446744073709551617\n",
];

/// Texts with a wrong spelling, with too few or too many numbers, or with something before or after
/// the numbers.
static NO_SIZES: [&str; 34] = [
    "",
    "\n",
    "1\n",
    "1 0\n",
    "1 0 \n",
    "1 0 0 0\n",
    "1 0 0",
    "1 0 0\n\n",
    "1 0 0\n ",
    "1 0 0\n1 0 0\n",
    "1 0 0\r\n",
    "1 0 0\r",
    "1 0 0 \n",
    " 1 0 0\n",
    "\n1 0 0\n",
    "1  0 0\n",
    "1 0  0\n",
    "1\t0 0\n",
    "1 0\n0\n",
    "01 0 0\n",
    "1 00 0\n",
    "1 0 00\n",
    "+1 0 0\n",
    "1 +0 0\n",
    "1 0 +0\n",
    "-1 0 0\n",
    "1 -0 0\n",
    "1 0x1 0\n",
    "1 1e3 0\n",
    "1 1,000 0\n",
    "1 0 0\u{0}\n",
    "1 0 0\n\u{0}",
    "\u{feff}1 0 0\n",
    "\u{ff11} 0 0\n",
];

/// Bytes that aren't UTF-8.
static NO_TEXT: [&[u8]; 3] = [b"\xff", b"\xff1 0 0\n", b"1 0 0\n\xff"];

#[test]
fn what_is_no_sizes_is_refused(rt: HostRuntime) -> Result<(), Fail> {
    for &text in &OUT_OF_RANGE {
        same(&rt, (text, read_sizes(text.as_bytes())), (text, None));
    }
    for &text in &NO_SIZES {
        same(&rt, (text, read_sizes(text.as_bytes())), (text, None));
    }
    for &bytes in &NO_TEXT {
        same(&rt, (bytes, read_sizes(bytes)), (bytes, None));
    }
    Ok(())
}
