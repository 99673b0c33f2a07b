// Known bytes are read and written, and what fails in mid-stream is told.
use super::*;
use std::io;
use std::test::Fail;

// Takes or gives one byte a call, and fails once so many went through.
#[derive(Drop)]
struct Breaking {
    left: u8,
}

impl Read for Breaking {
    fn read(&mut self, buf: &mut [u8]) -> io::Result<usize> {
        if self.left == 0 {
            return Err(io::Error::other("broken"));
        }
        if buf.is_empty() {
            return Ok(0);
        }
        buf[0] = b'a';
        self.left -= 1;
        Ok(1)
    }
}

impl Write for Breaking {
    fn write(&mut self, buf: &[u8]) -> io::Result<usize> {
        if self.left == 0 {
            return Err(io::Error::other("broken"));
        }
        if buf.is_empty() {
            return Ok(0);
        }
        self.left -= 1;
        Ok(1)
    }

    fn flush(&mut self) -> io::Result<()> {
        Ok(())
    }
}

#[test]
fn known_bytes_are_read(rt: HostRuntime) {
    let bytes = *b"abcde";
    let mut input = &bytes[..];
    let mut buf = [b'-'; 4];
    assert!(rt; matches!(fill(&mut input, &mut buf, 1), Filling::Until(4)));
    assert_eq!(rt; buf, *b"-abc");
    assert!(rt; matches!(read_some(&mut input, &mut buf), Got::Bytes(2)));
    assert_eq!(rt; buf, *b"debc");
    assert!(rt; matches!(read_some(&mut input, &mut buf), Got::End));
    assert!(rt; matches!(fill(&mut input, &mut buf, 3), Filling::Until(3)));
}

#[test]
fn known_bytes_are_written(rt: HostRuntime) -> Result<(), Fail> {
    let mut output = Vec::new(rt.alloc());
    assert!(rt; write_output(&mut output, b"ab"));
    assert!(rt; write_output(&mut output, b""));
    assert!(rt; write_error(&mut output, b"c"));
    assert_eq!(rt; output.as_slice(), b"abc".as_slice());
    Ok(())
}

#[test]
fn failures_in_mid_stream_are_told(rt: HostRuntime) {
    let mut buf = [0u8; 4];
    let mut input = Breaking { left: 2 };
    assert!(rt; matches!(fill(&mut input, &mut buf, 0), Filling::Failed));
    assert!(rt; matches!(read_some(&mut input, &mut buf), Got::Failed));
    let mut output = Breaking { left: 5 };
    assert!(rt; write_output(&mut output, b"abc"));
    assert!(rt; !write_output(&mut output, b"abc"));
    assert!(rt; !write_error(&mut output, b"abc"));
    assert!(rt; write_error(&mut output, b""));
}
