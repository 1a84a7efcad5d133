//! A source and a sink over a reader and a writer that are handed in.

use plural_bytes::*;
use std::io;
use std::test::*;

/// A reader of three bytes, one a call, whose call of this number, from 0, fails.
#[derive(Drop)]
struct FailsOnce {
    call: u32,
    fails: u32,
}

impl io::Read for FailsOnce {
    fn read(&mut self, buf: &mut [u8]) -> io::Result<usize> {
        let call = self.call;
        self.call = call.saturating_add(1);
        if call == self.fails {
            return Err(io::Error::from(io::ErrorKind::TimedOut));
        }
        if call >= 3 || buf.is_empty() {
            return Ok(0);
        }
        buf[0] = b'a';
        Ok(1)
    }
}

#[test]
fn a_source_fails_exactly_when_its_reader_does(rt: HostRuntime) -> Result<(), Fail> {
    let alloc = rt.alloc();
    let rows = [
        (0, Some(ReadError::Fault)),
        (1, Some(ReadError::Fault)),
        (2, Some(ReadError::Fault)),
        (3, Some(ReadError::Fault)),
        (9, None),
    ];
    for (fails, want) in rows {
        let mut source = StdSource::new(FailsOnce { call: 0, fails });
        assert_eq!(rt; read_all(alloc, &mut source, 10).err(), want);
    }
    let mut source = StdSource::new(FailsOnce { call: 0, fails: 9 });
    let bytes = read_all(alloc, &mut source, 10).ok().ok_or("bytes")?;
    assert_eq!(rt; bytes.as_slice(), b"aaa".as_slice());
    Ok(())
}

/// A writer that takes one byte a call and fails in the flush after so many.
#[derive(Drop)]
struct FlushesFew {
    flushes: u32,
}

impl io::Write for FlushesFew {
    fn write(&mut self, buf: &[u8]) -> io::Result<usize> {
        Ok(buf.len().min(1))
    }

    fn flush(&mut self) -> io::Result<()> {
        match self.flushes.checked_sub(1) {
            None => Err(io::Error::from(io::ErrorKind::TimedOut)),
            Some(left) => {
                self.flushes = left;
                Ok(())
            }
        }
    }
}

#[test]
fn a_sink_flushes_after_each_write_and_fails_when_a_flush_does(
    rt: HostRuntime,
) -> Result<(), Fail> {
    let rows = [
        (0, Err(WriteFault)),
        (1, Err(WriteFault)),
        (2, Ok(())),
        (3, Ok(())),
    ];
    for (flushes, want) in rows {
        let mut sink = StdSink::new(FlushesFew { flushes });
        assert_eq!(rt; write_all(&mut sink, b"ab".as_slice()), want);
    }
    Ok(())
}
