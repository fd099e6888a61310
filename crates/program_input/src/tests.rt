// Each function once on input that is there, and where it is missing, empty, too long or cut short.
use crate::{argument, read_full};
use std::env::{Env, FillError};
use std::io;
use std::io::Read;
use std::test::Fail;

// Gives a byte a call, and fails where they end.
#[derive(Drop)]
struct Failing {
    bytes: &'static [u8],
}

impl Read for Failing {
    fn read(&mut self, buf: &mut [u8]) -> io::Result<usize> {
        if self.bytes.is_empty() {
            return Err(io::Error::from(io::ErrorKind::Other));
        }
        if buf.is_empty() {
            return Ok(0);
        }
        buf[0] = self.bytes[0];
        self.bytes = &self.bytes[1..];
        Ok(1)
    }
}

// The arguments of a label with four colours, and an empty one.
#[derive(Drop)]
struct Arguments;

impl Env for Arguments {
    fn arg(&self, i: usize, buf: &mut [u8]) -> Result<usize, FillError> {
        let text: &[u8] = match i {
            0 => b"label",
            1 => b"",
            2 => b"4",
            _ => return Err(FillError::NotPresent),
        };
        if buf.len() < text.len() {
            return Err(FillError::TooLong);
        }
        buf[..text.len()].copy_from_slice(text);
        Ok(text.len())
    }

    fn var(&self, _name: &str, _buf: &mut [u8]) -> Result<usize, FillError> {
        Err(FillError::NotPresent)
    }

    fn var_at(&self, _i: usize, _buf: &mut [u8]) -> Result<usize, FillError> {
        Err(FillError::NotPresent)
    }
}

#[test]
fn reads_to_the_end_or_the_room(rt: HostRuntime) -> Result<(), Fail> {
    let mut input: &[u8] = b"symbol";
    let mut buffer = [b'.'; 4];
    assert_eq!(rt; read_full(&mut input, &mut buffer)?, 4);
    assert_eq!(rt; &buffer[..], &b"symb"[..]);
    assert_eq!(rt; read_full(&mut input, &mut buffer)?, 2);
    assert_eq!(rt; &buffer[..2], &b"ol"[..]);
    assert_eq!(rt; read_full(&mut input, &mut buffer)?, 0);
    Ok(())
}

#[test]
fn reads_byte_by_byte(rt: HostRuntime) -> Result<(), Fail> {
    let mut input = Failing { bytes: b"symbol" };
    let mut buffer = [b'.'; 4];
    assert_eq!(rt; read_full(&mut input, &mut buffer)?, 4);
    assert_eq!(rt; &buffer[..], &b"symb"[..]);
    assert!(rt;
        read_full(&mut input, &mut buffer).is_err(),
        "the input fails behind its last byte"
    );
    assert_eq!(rt; &buffer[..2], &b"ol"[..]);
    assert_eq!(rt;
        read_full(&mut input, &mut [])?,
        0,
        "without room nothing is read"
    );
    Ok(())
}

#[test]
fn stores_arguments(rt: HostRuntime) {
    let mut buffer = [b'.'; 5];
    assert_eq!(rt; argument(&Arguments, 0, &mut buffer), Some(5));
    assert_eq!(rt; &buffer[..], &b"label"[..]);
    assert_eq!(rt; argument(&Arguments, 2, &mut buffer), Some(1));
    assert_eq!(rt; buffer[0], b'4');
    assert_eq!(rt; argument(&Arguments, 1, &mut buffer), None, "it is empty");
    assert_eq!(rt; argument(&Arguments, 3, &mut buffer), None, "it is missing");
    assert_eq!(rt;
        argument(&Arguments, 0, &mut buffer[..4]),
        None,
        "it is longer than the buffer"
    );
}
