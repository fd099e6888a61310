// Runs cases of the library's two calls and prints what they answer and what they leave in the lent
// buffers. A line of standard input that begins with `#` is a comment. Every other line is one case,
// decimal numbers with one space between two:
//
//     0 kind h v N black cyan yellow wc wr mask turn L list[0..L] M W n message[0..n]
//     1 kind h v N black cyan yellow wc wr mask turn L list[0..L] W R S M matrix[0..M]
//
// The first is a write and the second a read. L is the length of the list, at most 3,100; M that of the
// matrix, at most 4,096; W that of the work buffer, at most 53,964; n that of the message, R that of the
// message buffer and S that of the slice for places, each at most 1,024. A parameter has at most 32 bits, a
// number of the list 16 and one of the message or the matrix 8. Document 01: programs keep to symbols of C at
// most 1,047 with wc 3, wr 9: at most 53,964 work bytes, with which no greater C passes test 5. Every byte that
// a call stores to is 165 before, and so a number of the slice 42,405. Each case prints one line:
//
//     write NUMBER PLACE WORK MATRIX
//     read NUMBER PLACE LENGTH REPAIRS UNMET STUFFING WORK REST SLICE BYTES PLACES
//
// WORK is `zero` where all W bytes are 0, or `kept` where all are 165, or `changed`. MATRIX is the
// modules, a digit each, or after a refusal `kept` where all M bytes are 165, or `changed`. REST says the
// same of the message buffer behind its first LENGTH bytes, and BYTES are these, in decimal. PLACES are the
// first numbers of the slice, on 0 as many as REPAIRS and on a refusal none, and SLICE says the same of all
// numbers behind them, some that lie behind the slice among them. A line that has another form, a number above
// its limit, or another wc or wr prints `bad case`. Of the input the first 655,360 bytes are read.
#![tactic(auto)]

ghost use Rattle.std.specs.Prelude.{◌≤◌, ◌<◌, ◌≡◌, length, take, IfOk, IfSome, OnErr};
ghost use Rattle.std.specs.Io.KnownBytes.{Consumes, IsAtEnd};
ghost use Rattle.program_input.specs.Reading.{CutShort, FilledFrom};

use calls::ReadAnswer;
use program_calls::{Limited, within_limit};
use std::fmt::Display;
use std::io;
use std::io::Read;
use symbology::Params;

// A byte that a call stores to, before the call, and a number of the slice for places.
const FILLED: u8 = 165;

const FILLED_NUMBER: u16 = 42405;

// ---- numbers of a line

// What is left of a line: `None` behind its last number.
#[derive(Drop)]
struct Line<'a> {
    rest: Option<&'a [u8]>,
}

// The number that decimal digits write, at least one of them.
fn decimal(digits: &[u8]) -> Option<u32> {
    if digits.is_empty() {
        return None;
    }
    let mut n: u32 = 0;
    for digit in digits {
        let digit = char::from(*digit).to_digit(10)?;
        n = n.checked_mul(10)?.checked_add(digit)?;
    }
    Some(n)
}

impl Line<'_> {
    // The next number, which is at most `most`. A space or the line's end follows it.
    fn number(&mut self, most: u32) -> Option<u32>
        ensures { IfSome result (λ n. n ≤ most) }
    {
        let rest = self.rest?;
        let end = rest.iter().position(|b| *b == b' ').unwrap_or(rest.len());
        self.rest = rest.get(end + 1..);
        decimal(&rest[..end]).filter(|n| *n <= most)
    }

    fn length(&mut self, most: u32) -> Option<usize>
        ensures { IfSome result (λ n. n ≤ most) }
    {
        Some(self.number(most)? as usize)
    }

    fn word(&mut self) -> Option<u32> {
        self.number(u32::MAX)
    }

    fn params(&mut self) -> Option<Params> {
        Some(Params {
            kind: self.word()?,
            horizontal: self.word()?,
            vertical: self.word()?,
            colours: self.word()?,
            black: self.word()?,
            cyan: self.word()?,
            yellow: self.word()?,
            wc: self.word()?,
            wr: self.word()?,
            mask: self.word()?,
            turn: self.word()?,
        })
    }

    // Stores as many numbers as the slice has.
    fn numbers<N: Copy + TryFrom<u32>>(&mut self, numbers: &mut [N]) -> Option<()>
    where
        N::Error: Drop,
    {
        for n in numbers.iter_mut() {
            *n = N::try_from(self.word()?).ok()?;
        }
        Some(())
    }
}

// ---- cases

#[derive(Drop)]
struct Buffers {
    list: [u16; 3100],
    matrix: [u8; 4096],
    work: [u8; 53964],
    message: [u8; 1024],
    numbers: [u16; 1032],
}

// A call, and how much of each buffer is lent to it: of the numbers the first `slots` are the slice for
// places, 0 with a write, so that both calls share the record. What the call reads stands in the buffers.
// Slices in place of the lengths would be no plainer: a call takes four or five parts of the buffers, some to
// read and some to write.
#[derive(Clone, Copy)]
struct Case {
    call: Call,
    limited: Limited,
    list: usize,
    matrix: usize,
    work: usize,
    message: usize,
    slots: usize,
    ghost list_fits: { list ≤ 3100 },
    ghost matrix_fits: { matrix ≤ 4096 },
    ghost work_fits: { work ≤ 53964 },
    ghost message_fits: { message ≤ 1024 },
    ghost slots_fit: { slots ≤ 1024 },
}

#[derive(Clone, Copy)]
enum Call {
    Write,
    Read,
}

// The case of a write, from the lengths behind the list on.
fn take_write(line: &mut Line, limited: Limited, list: usize, buffers: &mut Buffers) -> Option<Case>
    requires { list ≤ 3100 }
{
    let matrix = line.length(4096)?;
    let work = line.length(53964)?;
    let message = line.length(1024)?;
    line.numbers(&mut buffers.message[..message])?;
    Some(Case {
        call: Call::Write,
        limited,
        list,
        matrix,
        work,
        message,
        slots: 0,
    })
}

// The case of a read, from there on.
fn take_read(line: &mut Line, limited: Limited, list: usize, buffers: &mut Buffers) -> Option<Case>
    requires { list ≤ 3100 }
{
    let work = line.length(53964)?;
    let message = line.length(1024)?;
    let slots = line.length(1024)?;
    let matrix = line.length(4096)?;
    line.numbers(&mut buffers.matrix[..matrix])?;
    Some(Case {
        call: Call::Read,
        limited,
        list,
        matrix,
        work,
        message,
        slots,
    })
}

// The case that a line gives, which ends with its last number.
fn take_case(line: &mut Line, buffers: &mut Buffers) -> Option<Case> {
    let call = line.number(1)?;
    let limited = within_limit(line.params()?)?;
    let list = line.length(3100)?;
    line.numbers(&mut buffers.list[..list])?;
    let case = if call == 0 {
        take_write(line, limited, list, buffers)?
    } else {
        take_read(line, limited, list, buffers)?
    };
    line.rest.is_none().then_some(case)
}

// ---- what is printed of the buffers

// Prints numbers, each with a space before it: a literal of the format, which other programs have behind it.
fn print_numbers<N: Display>(rt: &impl Print, numbers: &[N]) -> io::Result<()> {
    for n in numbers {
        print!(rt; " {n}")?;
    }
    Ok(())
}

fn print_state(rt: &impl Print, kept: bool) -> io::Result<()> {
    rt.write_all(if kept { b" kept" } else { b" changed" })
}

fn print_kept(rt: &impl Print, bytes: &[u8]) -> io::Result<()> {
    print_state(rt, bytes.iter().all(|b| *b == FILLED))
}

fn print_work(rt: &impl Print, work: &[u8]) -> io::Result<()> {
    if work.iter().all(|b| *b == 0) {
        rt.write_all(b" zero")
    } else {
        print_kept(rt, work)
    }
}

// The digit of a module, and `?` where it has none.
fn digit(module: u8) -> u8 {
    match module {
        0..=9 => b'0' + module,
        _ => b'?',
    }
}

// The matrix goes out in one call, as its digits in its own place.
fn print_modules(rt: &impl Print, matrix: &mut [u8]) -> io::Result<()> {
    for module in matrix.iter_mut() {
        *module = digit(*module);
    }
    rt.write_all(b" ")?;
    rt.write_all(matrix)
}

fn print_matrix(rt: &impl Print, number: u32, matrix: &mut [u8]) -> io::Result<()> {
    if number == 0 {
        print_modules(rt, matrix)
    } else {
        print_kept(rt, matrix)
    }
}

// What a read left in the message buffer and in the numbers.
fn print_left(
    rt: &impl Print,
    message: &[u8],
    end: usize,
    numbers: &[u16],
    stored: usize,
) -> io::Result<()>
    requires { (end ≤ length message.now) × (stored ≤ length numbers.now) }
{
    print_kept(rt, &message[end..])?;
    print_state(rt, numbers[stored..].iter().all(|n| *n == FILLED_NUMBER))?;
    print_numbers(rt, &message[..end])?;
    print_numbers(rt, &numbers[..stored])
}

// ---- the calls

fn run_write(rt: &impl Print, case: Case, buffers: &mut Buffers) -> io::Result<()> {
    let list = &buffers.list[..case.list];
    let message = &buffers.message[..case.message];
    let matrix = &mut buffers.matrix[..];
    let matrix = &mut matrix[..case.matrix];
    let work = &mut buffers.work[..];
    let work = &mut work[..case.work];
    matrix.fill(FILLED);
    work.fill(FILLED);
    let answer = jabcode::write(case.limited.p, list, message, matrix, work);
    rt.write_all(b"write")?;
    print_numbers(rt, &[answer.number as usize, answer.place])?;
    print_work(rt, work)?;
    print_matrix(rt, answer.number, matrix)?;
    rt.write_all(b"\n")
}

fn print_read(rt: &impl Print, answer: ReadAnswer) -> io::Result<()> {
    rt.write_all(b"read")?;
    print_numbers(
        rt,
        &[
            answer.number as usize,
            answer.place,
            answer.length,
            answer.repairs,
            answer.unmet,
            answer.stuffing,
        ],
    )
}

// The numbers behind the slice for places are looked at as well.
fn run_read(rt: &impl Print, case: Case, buffers: &mut Buffers) -> io::Result<()> {
    let list = &buffers.list[..case.list];
    let matrix = &buffers.matrix[..case.matrix];
    let work = &mut buffers.work[..];
    let work = &mut work[..case.work];
    let message = &mut buffers.message[..];
    let message = &mut message[..case.message];
    let numbers = &mut buffers.numbers[..];
    work.fill(FILLED);
    message.fill(FILLED);
    numbers.fill(FILLED_NUMBER);
    let slots = &mut numbers[..case.slots];
    let reading = program_calls::read(case.limited, list, matrix, work, message, slots);
    print_read(rt, reading.answer)?;
    print_work(rt, work)?;
    print_left(rt, message, reading.answer.length, numbers, reading.stored)?;
    rt.write_all(b"\n")
}

fn run_line(rt: &impl Print, line: &[u8], buffers: &mut Buffers) -> io::Result<()> {
    if line.starts_with(b"#") {
        return Ok(());
    }
    let mut numbers = Line { rest: Some(line) };
    match take_case(&mut numbers, buffers) {
        None => rt.write_all(b"bad case\n"),
        Some(case) => match case.call {
            Call::Write => run_write(rt, case, buffers),
            Call::Read => run_read(rt, case, buffers),
        },
    }
}

fn run_lines(rt: &impl Print, input: &[u8], buffers: &mut Buffers) -> io::Result<()> {
    for line in input.split_inclusive(|b| *b == b'\n') {
        run_line(rt, line.strip_suffix(b"\n").unwrap_or(line), buffers)?;
    }
    Ok(())
}

// 655,360 zeros, for the input. Where they are used, to count them takes the checker too long.
fn input_buffer() -> [u8; 655360]
    ensures { 655360 ≡ length result }
{
    [0; 655360]
}

// Reads until the buffer is full or the input ends, and answers how many bytes came. A read gives as many as
// it likes, so that a `for` could only count the reads.
fn read_full<R: Read>(input: &mut R, buffer: &mut [u8]) -> io::Result<usize>
    ensures inside { IfOk result (λ n. n ≤ length buffer.new) }
    ensures bytes { IfOk result (λ n. Consumes (R.remaining input.old) (R.remaining input.new) (take n buffer.new)) }
    ensures end { IfOk result (λ n. n < length buffer.new → IsAtEnd (R.remaining input.new)) }
    ensures known { IfOk result (λ n. IfSome (R.remaining input.old)
        (λ xs. FilledFrom xs (R.remaining input.new) buffer.new n)) }
    ensures failed { OnErr result (CutShort (R.remaining input.old) (R.remaining input.new) buffer.new) }
{
    let mut done = 0;
    while done < buffer.len() {
        let n = input.read(&mut buffer[done..])?;
        if n == 0 {
            break;
        }
        done += n;
    }
    Ok(done)
}

fn main(rt: HostRuntime) -> io::Result<()> {
    let mut input = input_buffer();
    let mut buffers = Buffers {
        list: [0; 3100],
        matrix: [0; 4096],
        work: [0; 53964],
        message: [0; 1024],
        numbers: [0; 1032],
    };
    let n = read_full(&mut rt.stdin(), &mut input)?;
    run_lines(&rt, &input[..n], &mut buffers)
}
