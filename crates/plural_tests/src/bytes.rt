//! Rows from outside, and one call of each public function with ample memory.

ghost use Rattle.std.specs.Prelude.{◌≡◌};
ghost use Rattle.std.specs.BTreeMap.{get_by};
ghost use Rattle.std.specs.Cmp.Lexicographic.{slice_cmp};
ghost use Rattle.std.specs.Ordering.{nat_cmp};

use plural_bytes::*;
use std::collections::BTreeMap;
use std::test::*;

#[test]
fn content_lines_keep_their_numbers(rt: HostRuntime) -> Result<(), Fail> {
    let text = b"one\r\n\n \t# only a comment\n\t two  words # a NUL \0 here\r\nthree\r\r\nlast";
    let lines = split(rt.alloc(), text.as_slice()).ok().ok_or("no memory")?;
    let want = [
        (1, b"one".as_slice()),
        (4, b"two  words".as_slice()),
        (5, b"three\r".as_slice()),
        (6, b"last".as_slice()),
    ];
    assert_eq!(rt; lines.len(), want.len());
    for (line, (number, text)) in lines.iter().zip(want) {
        assert_eq!(rt; line.number, number);
        assert_eq!(rt; line.text, text);
    }
    Ok(())
}

#[test]
fn numerals_have_any_length(rt: HostRuntime) {
    let top = 18_446_744_073_709_551_615;
    let rows = [
        (b"0".as_slice(), 0, Ok(0)),
        (b"007".as_slice(), 7, Ok(7)),
        (b"8".as_slice(), 7, Err(NumberError::Range)),
        (b"0xfF".as_slice(), 255, Ok(255)),
        (b"18446744073709551615".as_slice(), top, Ok(top)),
        (
            b"18446744073709551616".as_slice(),
            top,
            Err(NumberError::Range),
        ),
        (
            b"99999999999999999999999999999999999999999".as_slice(),
            top,
            Err(NumberError::Range),
        ),
        (
            b"00000000000000000000000000000000000000005".as_slice(),
            5,
            Ok(5),
        ),
        (
            b"9999999999999999999999999999999999999999x".as_slice(),
            top,
            Err(NumberError::Form),
        ),
        (b"".as_slice(), top, Err(NumberError::Form)),
        (b"0x".as_slice(), top, Err(NumberError::Form)),
        (b"0X1".as_slice(), top, Err(NumberError::Form)),
        (b"-1".as_slice(), top, Err(NumberError::Form)),
        (b"1a".as_slice(), top, Err(NumberError::Form)),
    ];
    for (text, limit, want) in rows {
        assert_eq!(rt; number(text, limit), want);
    }
}

fn place_of(places: &BTreeMap<Name, u32>, name: &Name) -> Option<u32>
    ensures { result ≡ get_by (λ k. slice_cmp nat_cmp name.now k) places.now }
{
    places.get(name).copied()
}

#[test]
fn names_are_keys_in_the_order_of_their_bytes(rt: HostRuntime) -> Result<(), Fail> {
    let first = Name::of(b"a1".as_slice()).ok_or("a name")?;
    let second = Name::of(b"a".as_slice()).ok_or("a name")?;
    let third = Name::of(b"B".as_slice()).ok_or("a name")?;
    assert!(rt; third < second && second < first && first != second);
    let mut places = BTreeMap::new(rt.alloc());
    places.insert(first, 1)?;
    places.insert(second, 2)?;
    assert_eq!(rt; place_of(&places, &first), Some(1));
    assert_eq!(rt; place_of(&places, &second), Some(2));
    assert_eq!(rt; place_of(&places, &third), None);
    Ok(())
}

#[test]
fn a_source_is_read_to_its_end_or_its_first_failure(rt: HostRuntime) -> Result<(), Fail> {
    let rows = [
        (3, [7], None),
        (3, [3], None),
        (3, [2], Some(ReadError::Fault)),
        (3, [0], Some(ReadError::Fault)),
        (9, [1], Some(ReadError::Fault)),
    ];
    for (piece, fail, want) in rows {
        let bytes = b"abcde".as_slice().to_vec(rt.alloc())?;
        let fail = fail.as_slice().to_vec(rt.alloc())?;
        let mut source = MemSource::new(bytes, piece, fail);
        assert_eq!(rt; read_all(rt.alloc(), &mut source, 5).err(), want);
    }
    Ok(())
}

#[test]
fn one_byte_above_the_limit_is_too_long(rt: HostRuntime) -> Result<(), Fail> {
    let rows = [
        (5, None),
        (4, Some(ReadError::TooLong)),
        (0, Some(ReadError::TooLong)),
    ];
    for (limit, want) in rows {
        let bytes = b"abcde".as_slice().to_vec(rt.alloc())?;
        let mut source = MemSource::new(bytes, 2, Vec::new(rt.alloc()));
        assert_eq!(rt; read_all(rt.alloc(), &mut source, limit).err(), want);
    }
    Ok(())
}

#[test]
fn a_sink_holds_what_it_took_before_it_failed(rt: HostRuntime) -> Result<(), Fail> {
    let text = b"[image]\n00000000: 00000007\n".as_slice();
    let rows = [
        (1000, [7], Ok(()), 27),
        (1000, [0], Err(WriteFault), 0),
        (1000, [1], Err(WriteFault), 10),
        (27, [3], Ok(()), 27),
        (13, [7], Err(WriteFault), 13),
        (0, [7], Err(WriteFault), 0),
    ];
    for (room, fail, want, holds) in rows {
        let fail = fail.as_slice().to_vec(rt.alloc())?;
        let mut sink = MemSink::new(rt.alloc(), room, 10, fail)
            .ok()
            .ok_or("no memory")?;
        assert_eq!(rt; write_all(&mut sink, text), want);
        assert_eq!(rt; Some(sink.bytes()), text.get(..holds));
    }
    Ok(())
}

#[test]
fn a_full_sink_fails(rt: HostRuntime) -> Result<(), Fail> {
    let mut sink = MemSink::new(rt.alloc(), 1, 10, Vec::new(rt.alloc()))
        .ok()
        .ok_or("no memory")?;
    assert_eq!(rt; sink.write(b"ab".as_slice()), Ok(1));
    assert_eq!(rt; sink.write(b"b".as_slice()), Err(Failed));
    assert_eq!(rt; sink.write(b"".as_slice()), Err(Failed));
    Ok(())
}
