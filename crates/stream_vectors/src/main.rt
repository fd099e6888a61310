// Runs streams of known content. Each line of standard input, of at most 1,024 bytes, is one of three
// kinds: `#`, a comment; `r:`, net bits to read, in which only the digits 0 and 1 count; `w:`, a
// message to write.
//
// A read prints document 01's number, the length and the message, for which there is a buffer of 64
// bytes. A write prints the length of the stream, then the number of test 6, once where there are just
// as many net bits and once where there is one more, and the net bits with three zeros behind the end
// mark. No symbol is made, and no work buffer lent.
#![tactic(auto)]

ghost use Rattle.std.specs.Prelude.{◌+◌, ◌≤◌, ◌<◌, ◌≡◌, length, take, IfOk, IfSome, OnErr};
ghost use Rattle.std.specs.Io.KnownBytes.{Consumes, IsAtEnd};
ghost use Rattle.program_input.specs.Reading.{CutShort, FilledFrom};
ghost use Rattle.symbology.specs.Stream.{stream_of};

use std::io;
use std::io::Read;

// The bytes of a line that count. Of a longer one the next byte is passed over, and the rest taken as a
// line of its own. The functions of a line ask for that bound, which a type for a line would only carry.
const LINE: usize = 1024;

// Room for the bits of a line, and for a message that is read.
#[derive(Drop)]
struct Buffers {
    bits: [u8; 65536],
    message: [u8; 64],
}

fn print_number(rt: &impl Print, n: usize) -> io::Result<()> {
    print!(rt; "{n} ")
}

fn is_bit(digit: u8) -> bool {
    matches!(digit, b'0' | b'1')
}

// Stores the digits 0 and 1 of a line as bits and answers how many there are: the bits are lent on from the
// buffer, whose front they are.
fn gather(line: &[u8], bits: &mut [u8]) -> usize
    requires { length line.now ≤ length bits.old }
    ensures { result ≤ length line.now }
{
    let mut n = 0;
    for digit in line {
        if is_bit(*digit) {
            bits[n] = *digit % 2;
            n += 1;
        }
    }
    n
}

fn print_message(rt: &impl Print, number: u32, message: &[u8]) -> io::Result<()> {
    print_number(rt, number as usize)?;
    print_number(rt, message.len())?;
    rt.write_all(message)?;
    rt.write_all(b"\n")
}

// Reads net bits into a message's buffer. Answers document 01's number and the message's length: what is printed
// is two numbers, so that this is no Result.
fn read_net(net: &[u8], message: &mut [u8]) -> (u32, usize)
    ensures { result.1 ≤ length message.new }
{
    match stream_reader::read_net(net, message.len(), message) {
        Ok(length) => (0, length),
        Err(refusal) => (refusal.number(), 0),
    }
}

fn read_line(rt: &impl Print, line: &[u8], buffers: &mut Buffers) -> io::Result<()>
    requires { length line.now ≤ 65536 }
{
    let n = gather(line, &mut buffers.bits);
    let (number, length) = read_net(&buffers.bits[..n], &mut buffers.message);
    print_message(rt, number, &buffers.message[..length])
}

fn print_bits(rt: &impl Print, bits: &[u8]) -> io::Result<()> {
    for bit in bits {
        rt.write_all(&[b'0' + *bit % 2])?;
    }
    Ok(())
}

fn print_test_6(rt: &impl Print, message: &[u8], net: usize) -> io::Result<()>
    requires { net ≤ 65536 }
{
    let exceeds = stream_writer::exceeds_net(message, net);
    print_number(rt, if exceeds { 6 } else { 0 })
}

fn print_net(rt: &impl Print, message: &[u8], net: &mut [u8]) -> io::Result<()>
    requires { length (stream_of message.now) < length net.old }
{
    stream_writer::write_net(message, net);
    print_bits(rt, net)?;
    rt.write_all(b"\n")
}

// The length of a message's stream, which is at most 32 bits a byte.
fn stream_length(message: &[u8]) -> usize
    requires { length message.now ≤ 1024 }
    ensures { (result ≡ length (stream_of message.now)) × (result ≤ 32768) }
{
    stream_writer::stream_length(message)
}

fn write_line(rt: &impl Print, message: &[u8], buffers: &mut Buffers) -> io::Result<()>
    requires { length message.now ≤ 1024 }
{
    let n = stream_length(message);
    print_number(rt, n)?;
    print_test_6(rt, message, n)?;
    print_test_6(rt, message, n + 1)?;
    print_net(rt, message, &mut buffers.bits[..n + 4])
}

fn run_line(rt: &impl Print, line: &[u8], buffers: &mut Buffers) -> io::Result<()>
    requires { length line.now ≤ 1024 }
{
    match line {
        [b'r', _, ..] => read_line(rt, line, buffers),
        [b'w', _, message @ ..] => write_line(rt, message, buffers),
        _ => Ok(()),
    }
}

// Reads until the buffer is full or the input ends, and answers how many bytes came. A read gives as many as
// it likes, so that a `for` could only count the reads.
fn read_full<R: Read>(input: &mut R, buffer: &mut [u8]) -> io::Result<usize>
    ensures inside { IfOk result (λ n. n ≤ length buffer.new) }
    ensures bytes { IfOk result (λ n. Consumes (R.remaining input.old) (R.remaining input.new) (take n buffer.new)) }
    ensures end { IfOk result (λ n. n < length buffer.new → IsAtEnd (R.remaining input.new)) }
    ensures known { IfOk result (λ n. IfSome (R.remaining input.old)
        (λ xs. FilledFrom xs (R.remaining input.new) buffer.new n)) }
    ensures failed { OnErr result (CutShort (R.remaining input.old) (R.remaining input.new) buffer.new) }
{
    let mut done = 0;
    while done < buffer.len() {
        let n = input.read(&mut buffer[done..])?;
        if n == 0 {
            break;
        }
        done += n;
    }
    Ok(done)
}

fn main(rt: HostRuntime) -> io::Result<()> {
    let mut input = [0u8; 65536];
    let mut buffers = Buffers {
        bits: [0; 65536],
        message: [0; 64],
    };
    let n = read_full(&mut rt.stdin(), &mut input)?;
    for line in input[..n].split_inclusive(|b| *b == b'\n') {
        for part in line.chunks(LINE + 1) {
            let kept = &part[..part.len().min(LINE)];
            run_line(&rt, kept.strip_suffix(b"\n").unwrap_or(kept), &mut buffers)?;
        }
    }
    Ok(())
}
