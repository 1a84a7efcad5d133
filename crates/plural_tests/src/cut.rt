//! Bundles that end too early, and bytes that rows of text can't show.

use crate::trial::{SUM, answered};
use std::alloc::{AllocError, Global};
use std::test::Fail;

/// The lines of the smallest bundle up to its last.
const LINES: [&str; 15] = [
    "plural 1",
    "[map]",
    "memory 8",
    "cache 1 1",
    "task add regular entry start budget 100",
    "read 0 0 2",
    "write 2 0 1",
    "[kernels]",
    "start: lw x5, 0(x0)",
    "lw x6, 4(x0)",
    "add x7, x5, x6",
    "sw x7, 8(x0)",
    "ecall",
    "[image]",
    "00000000: 00000007 00000023",
];

/// The first lines of the smallest bundle with this line end after each.
fn first_lines(alloc: Global, lines: usize, line_end: &str) -> Result<Vec<u8>, AllocError> {
    let mut text = Vec::new(alloc);
    for line in LINES.iter().take(lines) {
        text.extend_from_slice(line.as_bytes())?;
        text.extend_from_slice(line_end.as_bytes())?;
    }
    Ok(text)
}

#[test]
fn a_bundle_that_is_cut_off_is_charged_to_a_line(rt: HostRuntime) -> Result<(), Fail> {
    let alloc = rt.alloc();
    for lines in 0..16 {
        let answer = answered(&rt, alloc, &["serial"], first_lines(alloc, lines, "\n")?)?;
        let mut text = Vec::from_slice(alloc, b"fault: line ")?;
        if lines >= 5 && lines <= 8 {
            text.extend_from_slice(b"5: name\n")?;
        } else {
            text.extend_from_slice((lines + 1).to_string(alloc)?.as_bytes())?;
            text.extend_from_slice(b": form\n")?;
        }
        assert_eq!(rt; answer.0, 3);
        assert_eq!(rt; answer.1, text);
    }
    Ok(())
}

#[test]
fn a_bundle_that_is_cut_off_within_a_line_is_charged_to_it(rt: HostRuntime) -> Result<(), Fail> {
    let alloc = rt.alloc();
    let mut input = first_lines(alloc, 14, "\n")?;
    input.extend_from_slice(b"00000000: 000000")?;
    let answer = answered(&rt, alloc, &["serial"], input)?;
    assert_eq!(rt; answer.0, 3);
    assert_eq!(rt; answer.1.as_slice(), b"fault: line 15: form\n".as_slice());
    Ok(())
}

#[test]
fn line_ends_and_bytes_outside_the_printable_ones_are_read(rt: HostRuntime) -> Result<(), Fail> {
    let alloc = rt.alloc();
    let mut input = first_lines(alloc, 15, "\r\n")?;
    input.extend_from_slice(b"[end]\r\n")?;
    let answer = answered(&rt, alloc, &["serial"], input)?;
    assert_eq!(rt; answer.0, 0);
    assert_eq!(rt; answer.1.as_slice(), SUM.as_bytes());

    let mut input = first_lines(alloc, 15, " # \0\n")?;
    input.extend_from_slice(b"[end]\n# behind the end\n")?;
    let answer = answered(&rt, alloc, &["run", "--cores=1"], input)?;
    assert_eq!(rt; answer.0, 0);
    assert_eq!(rt; answer.1.as_slice(), SUM.as_bytes());

    let mut input = first_lines(alloc, 4, "\n")?;
    input.extend_from_slice(b"task add regular entry start budget 100\0\n")?;
    let answer = answered(&rt, alloc, &["serial"], input)?;
    assert_eq!(rt; answer.1.as_slice(), b"fault: line 5: form\n".as_slice());
    Ok(())
}
