// Makes a picture of a label. Standard input has its text, one digit a module, one line a row; standard
// output gets a PNG, 8 pixels a module, with four white modules around. Argument i is the colour of index
// i - 1, a number of Table 3 of document 002; a missing one is the index itself. Lines longer than the
// greatest symbol's give no picture.
//
// The PNG (ISO/IEC 15948) has indexed colours, the eight of Table 3 in their order, and one stored block of
// zlib for each row of pixels, each in a chunk of its own.
#![tactic(auto)]

ghost use Rattle.std.specs.Prelude.{◌+◌, ◌*◌, ◌^◌, ◌≤◌, ◌<◌, ◌≡◌, length, take, IfOk, IfSome, OnErr};
ghost use Rattle.std.specs.Io.KnownBytes.{Consumes, IsAtEnd};
ghost use Rattle.program_input.specs.Reading.{CutShort, FilledFrom};

use std::env::Env;
use std::io;
use std::io::Read;

// Pixels along a module, and white modules on each side.
const SCALE: usize = 8;

const QUIET: usize = 4;

// The most modules along a line.
const MODULES: usize = 145;

// The most pixels of a row.
const WIDEST: usize = SCALE * (MODULES + 2 * QUIET);

// White in Table 3.
const WHITE: u8 = 7;

// What a CRC-32 begins with.
const MOST: u32 = 0xffff_ffff;

fn crc_bit(crc: u32) -> u32 {
    if crc % 2 == 1 {
        0xedb8_8320 ^ (crc / 2)
    } else {
        crc / 2
    }
}

fn crc_byte(crc: u32, b: u8) -> u32 {
    (0..8).fold(crc ^ u32::from(b), |c, _| crc_bit(c))
}

// A CRC-32, not yet complemented, with more bytes. This and `adler_bytes` are the library's fold with two steps.
fn crc_bytes(crc: u32, bytes: &[u8]) -> u32 {
    bytes.iter().fold(crc, |c, b| crc_byte(c, *b))
}

// An Adler-32 with one more byte.
fn adler_byte(adler: u32, b: u8) -> u32 {
    let low = (adler % 65536 + u32::from(b)) % 65521;
    let high = (adler / 65536 + low) % 65521;
    65536 * high + low
}

fn adler_bytes(adler: u32, bytes: &[u8]) -> u32 {
    bytes.iter().fold(adler, |sum, b| adler_byte(sum, *b))
}

// Prints a number, the highest byte first.
fn print_word(rt: &impl Print, n: u32) -> io::Result<()> {
    rt.write_all(&n.to_be_bytes())
}

// Prints a chunk, given its type and its data in two parts.
fn print_chunk(rt: &impl Print, kind: &[u8; 4], front: &[u8], rest: &[u8]) -> io::Result<()>
    requires { length front.now + length rest.now < 2 ^ 32 }
{
    print_word(rt, (front.len() + rest.len()) as u32)?;
    rt.write_all(kind)?;
    rt.write_all(front)?;
    rt.write_all(rest)?;
    let crc = crc_bytes(crc_bytes(crc_bytes(MOST, kind), front), rest);
    print_word(rt, !crc)
}

// Prints the chunk of the sizes: 8 bits a pixel, indexed colours, no interlace.
fn print_sizes(rt: &impl Print, width: u32, height: u32) -> io::Result<()> {
    let mut sizes = [0, 0, 0, 0, 0, 0, 0, 0, 8, 3, 0, 0, 0];
    sizes[..4].copy_from_slice(&width.to_be_bytes());
    sizes[4..8].copy_from_slice(&height.to_be_bytes());
    print_chunk(rt, b"IHDR", &sizes, b"")
}

// Prints what stands in front of the pixels: signature, sizes, the colours of Table 3, and the head of the
// zlib stream.
fn print_front(rt: &impl Print, width: u32, height: u32) -> io::Result<()> {
    rt.write_all(b"\x89PNG\r\n\x1a\n")?;
    print_sizes(rt, width, height)?;
    print_chunk(
        rt,
        b"PLTE",
        b"\0\0\0\0\0\xff\0\xff\0\0\xff\xff\xff\0\0\xff\0\xff\xff\xff\0\xff\xff\xff",
        b"",
    )?;
    print_chunk(rt, b"IDAT", b"\x78\x01", b"")
}

// Prints what stands behind the pixels: an empty last block, the Adler-32, and the end.
fn print_back(rt: &impl Print, adler: u32) -> io::Result<()> {
    print_chunk(rt, b"IDAT", b"\x01\0\0\xff\xff", &adler.to_be_bytes())?;
    print_chunk(rt, b"IEND", b"", b"")
}

// Prints one row of pixels: a chunk of a stored block, whose bytes are the filter 0 and the pixels.
fn print_row(rt: &impl Print, pixels: &[u8]) -> io::Result<()>
    requires { length pixels.now ≤ 1224 }
{
    let [low, high] = (pixels.len() as u16 + 1).to_le_bytes();
    print_chunk(rt, b"IDAT", &[0, low, high, !low, !high, 0], pixels)
}

// The pixels along a side of so many modules.
fn side(modules: usize) -> usize
    requires { modules ≤ 65537 }
    ensures { result ≡ 8 * (modules + 8) }
{
    SCALE * (modules + 2 * QUIET)
}

// The colour of an index that an argument gives.
fn colour(rt: &impl Env, i: usize) -> Option<u8> {
    let mut text = [0u8; 16];
    rt.arg(i, &mut text).ok().filter(|n| 0 < *n)?;
    Some(text[0] % 8)
}

// A picture: the colour of each index, room for a row of pixels and how many of them a row has, and the
// Adler-32 of the rows that are printed. An ArrayVec would be no plainer: its length would never change.
#[derive(Drop)]
struct Picture {
    colours: [u8; 8],
    pixels: [u8; WIDEST],
    width: usize,
    adler: u32,
    ghost fits: { width ≤ 1224 },
}

impl Picture {
    fn new(rt: &impl Env, columns: usize) -> Picture
        requires { columns ≤ 145 }
    {
        let mut colours = [0, 1, 2, 3, 4, 5, 6, 7];
        for (i, index) in colours.iter_mut().enumerate() {
            *index = colour(rt, i + 1).unwrap_or(*index);
        }
        Picture {
            colours,
            pixels: [0; WIDEST],
            width: side(columns),
            adler: 1,
        }
    }

    // The colour of pixel x in a line of modules; white on both sides of it.
    fn pixel(&self, line: &[u8], x: usize) -> u8 {
        let module = x / SCALE;
        if module < QUIET || line.len() <= module - QUIET {
            return WHITE;
        }
        // the digit 0 is the byte 48, a multiple of 8
        self.colours[usize::from(line[module - QUIET] % 8)]
    }

    // Prints a line of modules.
    fn print_line(&mut self, rt: &impl Print, line: &[u8]) -> io::Result<()> {
        for x in 0..self.width {
            self.pixels[x] = self.pixel(line, x);
        }
        for _ in 0..SCALE {
            let row = &self.pixels[..self.width];
            print_row(rt, row)?;
            self.adler = adler_bytes(adler_byte(self.adler, 0), row);
        }
        Ok(())
    }

    fn print_quiet(&mut self, rt: &impl Print) -> io::Result<()> {
        for _ in 0..QUIET {
            self.print_line(rt, b"")?;
        }
        Ok(())
    }

    // Prints the lines of a text that are whole.
    fn print_lines(&mut self, rt: &impl Print, text: &[u8], columns: usize) -> io::Result<()>
        requires { columns ≤ 145 }
    {
        for line in text.chunks(columns + 1) {
            if columns <= line.len() {
                self.print_line(rt, &line[..columns])?;
            }
        }
        Ok(())
    }
}

fn print_picture(rt: &(impl Print + Env), text: &[u8]) -> io::Result<()>
    requires { length text.now ≤ 65536 }
{
    let columns = text.iter().position(|b| *b == b'\n').unwrap_or(text.len());
    if columns == 0 || MODULES < columns {
        return Ok(());
    }
    let rows = (text.len() + 1) / (columns + 1);
    print_front(rt, side(columns) as u32, side(rows) as u32)?;
    let mut picture = Picture::new(rt, columns);
    picture.print_quiet(rt)?;
    picture.print_lines(rt, text, columns)?;
    picture.print_quiet(rt)?;
    print_back(rt, picture.adler)
}

// Reads until the buffer is full or the input ends, and answers how many bytes came. A read gives as many as
// it likes, so that a `for` could only count the reads.
fn read_full<R: Read>(input: &mut R, buffer: &mut [u8]) -> io::Result<usize>
    ensures inside { IfOk result (λ n. n ≤ length buffer.new) }
    ensures bytes { IfOk result (λ n. Consumes (R.remaining input.old) (R.remaining input.new) (take n buffer.new)) }
    ensures end { IfOk result (λ n. n < length buffer.new → IsAtEnd (R.remaining input.new)) }
    ensures known { IfOk result (λ n. IfSome (R.remaining input.old)
        (λ xs. FilledFrom xs (R.remaining input.new) buffer.new n)) }
    ensures failed { OnErr result (CutShort (R.remaining input.old) (R.remaining input.new) buffer.new) }
{
    let mut done = 0;
    while done < buffer.len() {
        let n = input.read(&mut buffer[done..])?;
        if n == 0 {
            break;
        }
        done += n;
    }
    Ok(done)
}

fn main(rt: HostRuntime) -> io::Result<()> {
    let mut space = [0u8; 65536];
    let n = read_full(&mut rt.stdin(), &mut space)?;
    print_picture(&rt, &space[..n])
}
