// Writes and reads labels; ./label calls it and puts its answers into words.
//
// Arguments: `write`, `read` or `colours`; then the eleven parameters in document 01's order, where one
// that is missing or empty has its default; then, where a reserved list is given, the word `list` and its
// numbers. Without that word the list is four colour palettes. With no argument at all a record is written
// as the default symbol.
//
// `write` takes a record from standard input and prints its symbol, one digit a module, one line a row.
// `read` takes such a text and prints a line of numbers and the message behind it. A write that is refused
// prints such a line alone. Its numbers are document 01's number and place, the bytes of the record or the
// message, the modules, repairs, checks unmet at first, wrong stuffing bits, and then of the symbol: columns,
// rows, C, net bits, work bytes and checks, which are 0 with 1, 2 and 3. Behind them a read that is done has the
// place of each repair. `colours` prints how many colours there are and the indices of black, cyan and yellow.
//
// Document 01: programs keep to symbols of C at most 1,047 with wc 3, wr 9: at most 53,964 work bytes. Another
// wc or wr is refused with the line `100` and twelve zeros; 100 is no number of document 01. The work buffer
// has 53,964 bytes, with which no greater C passes test 5.
#![tactic(auto)]

ghost use Rattle.std.specs.Prelude.{◌+◌, ◌≤◌, ◌<◌, length, take, IfOk, IfSome, OnErr};
ghost use Rattle.std.specs.Io.KnownBytes.{Consumes, IsAtEnd};
ghost use Rattle.program_input.specs.Reading.{CutShort, FilledFrom};
ghost use Rattle.arrayvec.specs.ArrayVec.{array_vec_len};

use arrayvec::ArrayVec;
use calls::ReadAnswer;
use program_calls::{Limited, within_limit};
use std::env::{Env, FillError};
use std::fmt::Display;
use std::io;
use std::io::Read;
use symbology::Params;

// The first argument that is a number of the reserved list.
const LIST_AT: usize = 14;

// A reserved list, of which 4,095 numbers are taken. 1,025 entries are as bad as more.
type List = ArrayVec<u16, 4095>;

// The modules of a text. There is room for more than any matrix has.
type Matrix = ArrayVec<u8, 65536>;

// What is asked for, by the first letter of the first argument; a record is written where there is none.
#[derive(Clone, Copy)]
enum Mode {
    Write,
    Read,
    Colours,
}

// A number with one more decimal digit. It stays at the greatest where it would pass it, or where the byte is
// no digit: a call refuses that as it refuses one that is too great, so that it is no None.
fn grow(n: u32, digit: u8) -> u32 {
    match digit {
        b'0'..=b'9' => n.saturating_mul(10).saturating_add(u32::from(digit - b'0')),
        _ => u32::MAX,
    }
}

fn decimal(text: &[u8]) -> u32 {
    text.iter().fold(0, |n, digit| grow(n, *digit))
}

// Stores argument i and answers its length, where it is not missing, not empty and not longer than the
// buffer. The length and no slice: a part lent out of it would need a clause on what it lends.
fn argument(rt: &impl Env, i: usize, buffer: &mut [u8]) -> Option<usize>
    ensures { IfSome result (λ n. (0 < n) × (n ≤ length buffer.new)) }
{
    rt.arg(i, buffer).ok().filter(|n| 0 < *n)
}

// The number that argument i writes, if it is not missing, empty or longer than 16 bytes.
fn number(rt: &impl Env, i: usize) -> Option<u32> {
    let mut text = [0u8; 16];
    let n = argument(rt, i, &mut text)?;
    Some(decimal(&text[..n]))
}

// The defaults of cyan and yellow differ with the number of colours. Those of 8 colours are the indices in
// Table 3 of document 002; document 000 names that table too, and its public sample ends before it.
fn params(rt: &impl Env) -> Params {
    let colours = number(rt, 5).unwrap_or(8);
    let (cyan, yellow) = if colours == 4 { (1, 3) } else { (3, 6) };
    Params {
        kind: number(rt, 2).unwrap_or(0),
        horizontal: number(rt, 3).unwrap_or(1),
        vertical: number(rt, 4).unwrap_or(1),
        colours,
        black: number(rt, 6).unwrap_or(0),
        cyan: number(rt, 7).unwrap_or(cyan),
        yellow: number(rt, 8).unwrap_or(yellow),
        wc: number(rt, 9).unwrap_or(3),
        wr: number(rt, 10).unwrap_or(9),
        mask: number(rt, 11).unwrap_or(0),
        turn: number(rt, 12).unwrap_or(0),
    }
}

// The modules along a side. Side-versions that are refused count as 0 or 32.
fn side(version: u32) -> usize
    ensures { (17 ≤ result) × (result ≤ 145) }
{
    17 + 4 * version.min(32) as usize
}

// How many colour indices there are; numbers of colours that are refused count as 8.
fn palette_colours(colours: u32) -> u16
    ensures { (4 ≤ result) × (result ≤ 8) }
{
    match colours {
        4 => 4,
        _ => 8,
    }
}

// Adds one palette: each colour but two, one module after the other in row y from column x on.
fn put_palette(list: &mut List, x: u16, y: u16, colours: u16, a: u32, b: u32)
    requires { (array_vec_len list.old + 24 ≤ 4095) × (x ≤ 145) × (colours ≤ 8) }
    ensures { array_vec_len list.new ≤ array_vec_len list.old + 24 }
{
    let mut column = x;
    for colour in 0..colours {
        let index = u32::from(colour);
        if index != a && index != b {
            list.push(column);
            list.push(y);
            list.push(colour);
            column += 1;
        }
    }
}

// Adds four palettes, each of the colours that the nearest finder or alignment pattern lacks (000,
// 4.3.9): in the eighth row from above and from below, from the first column on and up to the last. The
// patterns on the left have the colours `both` and `left`, those on the right `both` and `right`. The places
// are our own, since the figure that shows them is damaged.
fn put_palettes(p: Params, list: &mut List, both: u32, left: u32, right: u32)
    requires { array_vec_len list.old + 96 ≤ 4095 }
    ensures { array_vec_len list.new ≤ array_vec_len list.old + 96 }
{
    let colours = palette_colours(p.colours);
    let x = side(p.horizontal) as u16 + 3 - colours;
    let y = side(p.vertical) as u16 - 7;
    put_palette(list, 1, 8, colours, both, left);
    put_palette(list, x, 8, colours, both, right);
    put_palette(list, x, y, colours, both, right);
    put_palette(list, 1, y, colours, both, left);
}

// The list of a symbol where none is given. A finder pattern has black, and cyan on the left or yellow on
// the right; an alignment pattern has cyan and yellow.
fn put_default(p: Params, list: &mut List)
    requires { array_vec_len list.old + 96 ≤ 4095 }
    ensures { array_vec_len list.new ≤ array_vec_len list.old + 96 }
{
    if p.kind == 0 {
        put_palettes(p, list, p.black, p.cyan, p.yellow);
    } else {
        put_palettes(p, list, p.cyan, p.yellow, p.yellow);
    }
}

// Adds the numbers of a list that is given. One above 65,535, or none, is as far outside every symbol as that.
fn put_given(rt: &impl Env, list: &mut List, arguments: usize) {
    for i in LIST_AT..arguments {
        if list.is_full() {
            return;
        }
        let n = number(rt, i).unwrap_or(u32::MAX);
        list.push(u16::try_from(n).unwrap_or(u16::MAX));
    }
}

// Whether there is an argument i.
fn is_given(rt: &impl Env, i: usize) -> bool {
    !matches!(rt.arg(i, &mut []), Err(FillError::NotPresent))
}

// How many arguments there are, the program's name among them: fewer than the greatest number, which only
// ends the search.
fn argument_count(rt: &impl Env) -> usize {
    for i in 0..usize::MAX {
        if !is_given(rt, i) {
            return i;
        }
    }
    usize::MAX
}

// The reserved list.
fn reserved_list(rt: &impl Env, p: Params) -> List {
    let mut list = List::new();
    let arguments = argument_count(rt);
    if arguments < LIST_AT {
        put_default(p, &mut list);
    } else {
        put_given(rt, &mut list, arguments);
    }
    list
}

// Prints numbers, each with a space behind it. The space is part of the format, a literal, so another program
// with another format has its own.
fn print_numbers<N: Display>(rt: &impl Print, numbers: &[N]) -> io::Result<()> {
    for number in numbers {
        print!(rt; "{number} ")?;
    }
    Ok(())
}

fn end_line(rt: &impl Print) -> io::Result<()> {
    rt.write_all(b"\n")
}

fn print_colours(rt: &impl Print, p: Params) -> io::Result<()> {
    print_numbers(rt, &[p.colours, p.black, p.cyan, p.yellow])?;
    end_line(rt)
}

// Prints the refusal of a wc or wr beyond the limit.
fn print_beyond(rt: &impl Print) -> io::Result<()> {
    print_numbers(rt, &[100, 0, 0, 0, 0, 0, 0, 0, 0, 0, 0, 0, 0])?;
    end_line(rt)
}

fn area(columns: usize, rows: usize) -> usize
    requires { (columns ≤ 145) × (rows ≤ 145) }
    ensures { result ≤ 21025 }
{
    columns * rows
}

// Prints the numbers of an answer to so many bytes and modules, and of its symbol.
fn print_answer(
    rt: &impl Print,
    p: Params,
    list: &[u16],
    answer: ReadAnswer,
    bytes: usize,
    modules: usize,
) -> io::Result<()> {
    let sizes = jabcode::sizes(p, list);
    print_numbers(
        rt,
        &[
            answer.number as usize,
            answer.place,
            bytes,
            modules,
            answer.repairs,
            answer.unmet,
            answer.stuffing,
            sizes.columns,
            sizes.rows,
            sizes.capacity,
            sizes.net,
            sizes.work,
            sizes.checks,
        ],
    )
}

fn as_digits(matrix: &mut [u8]) {
    for module in matrix.iter_mut() {
        *module = b'0' + *module % 10;
    }
}

fn print_rows(rt: &impl Print, digits: &[u8], columns: usize) -> io::Result<()>
    requires { 0 < columns }
{
    for row in digits.chunks_exact(columns) {
        rt.write_all(row)?;
        rt.write_all(b"\n")?;
    }
    Ok(())
}

// Writes a record into a matrix of the symbol's modules, and prints it or the refusal.
fn write_record(
    rt: &impl Print,
    limited: Limited,
    list: &[u16],
    record: &[u8],
    matrix: &mut [u8],
) -> io::Result<()> {
    let p = limited.p;
    let mut work = [0u8; 53964];
    let answer = jabcode::write(p, list, record, matrix, &mut work);
    if answer.number != 0 {
        let refusal = ReadAnswer::from(answer);
        print_answer(rt, p, list, refusal, record.len(), matrix.len())?;
        return end_line(rt);
    }
    as_digits(matrix);
    print_rows(rt, matrix, side(p.horizontal))
}

// Reads until the buffer is full or the input ends, and answers how many bytes came. A read gives as many as
// it likes, so that a `for` could only count the reads.
fn read_full<R: Read>(input: &mut R, buffer: &mut [u8]) -> io::Result<usize>
    ensures inside { IfOk result (λ n. n ≤ length buffer.new) }
    ensures bytes { IfOk result (λ n. Consumes (R.remaining input.old) (R.remaining input.new) (take n buffer.new)) }
    ensures end { IfOk result (λ n. n < length buffer.new → IsAtEnd (R.remaining input.new)) }
    ensures known { IfOk result (λ n. IfSome (R.remaining input.old)
        (λ xs. FilledFrom xs (R.remaining input.new) buffer.new n)) }
    ensures failed { OnErr result (CutShort (R.remaining input.old) (R.remaining input.new) buffer.new) }
{
    let mut done = 0;
    while done < buffer.len() {
        let n = input.read(&mut buffer[done..])?;
        if n == 0 {
            break;
        }
        done += n;
    }
    Ok(done)
}

// Writes a record. One that fills its buffer has no room in any symbol, whatever stands behind it.
fn write_label(
    rt: &impl Print,
    input: &mut impl Read,
    limited: Limited,
    list: &[u16],
) -> io::Result<()> {
    let mut record = [0u8; 65536];
    let mut matrix = [0u8; 65536];
    let n = read_full(input, &mut record)?;
    let modules = area(side(limited.p.horizontal), side(limited.p.vertical));
    write_record(rt, limited, list, &record[..n], &mut matrix[..modules])
}

fn is_blank(b: u8) -> bool {
    matches!(b, b' ' | b'\n' | b'\r')
}

// The colour index that a digit writes. Any other byte is no colour index: 255, which a read refuses.
fn module_of(b: u8) -> u8 {
    match b {
        b'0'..=b'9' => b - b'0',
        _ => 255,
    }
}

// Adds the modules of a text, as far as the matrix has room.
fn put_modules(text: &[u8], matrix: &mut Matrix) {
    for b in text.iter().filter(|b| !is_blank(**b)) {
        if matrix.is_full() {
            return;
        }
        matrix.push(module_of(*b));
    }
}

// Adds the modules of standard input, read piece by piece to its end. A text that fills the matrix is
// refused with 4. Where a read fails, the matrix may hold modules read before. `side_lister` reads so too: of
// what the steps leave, one function over both as closures could promise nothing.
fn read_modules(input: &mut impl Read, matrix: &mut Matrix) -> io::Result<()> {
    let mut space = [0u8; 4096];
    for _ in 0..u64::MAX {
        let n = input.read(&mut space)?;
        if n == 0 {
            break;
        }
        put_modules(&space[..n], matrix);
    }
    Ok(())
}

// Reads a text and prints the answer, the places of the repairs and the message. The message fits: it has no
// more bytes than the symbol net bits, and those are fewer than 4,096. So do the places: a symbol of C at most
// 1,047 has at most 348 checks, and there are no more repairs.
fn read_label(
    rt: &impl Print,
    input: &mut impl Read,
    limited: Limited,
    list: &[u16],
) -> io::Result<()> {
    let mut matrix = Matrix::new();
    let mut work = [0u8; 53964];
    let mut message = [0u8; 4096];
    let mut places = [0u16; 348];
    read_modules(input, &mut matrix)?;
    let modules = matrix.as_slice();
    let reading = program_calls::read(limited, list, modules, &mut work, &mut message, &mut places);
    let length = reading.answer.length;
    print_answer(rt, limited.p, list, reading.answer, length, modules.len())?;
    print_numbers(rt, &places[..reading.stored])?;
    end_line(rt)?;
    rt.write_all(&message[..length])
}

fn mode_asked(rt: &impl Env) -> Mode {
    let mut text = [0u8; 16];
    if argument(rt, 1, &mut text).is_none() {
        return Mode::Write;
    }
    match text[0] {
        b'c' => Mode::Colours,
        b'r' => Mode::Read,
        _ => Mode::Write,
    }
}

fn main(rt: HostRuntime) -> io::Result<()> {
    let p = params(&rt);
    let list = reserved_list(&rt, p);
    match (mode_asked(&rt), within_limit(p)) {
        (Mode::Colours, _) => print_colours(&rt, p),
        (_, None) => print_beyond(&rt),
        (Mode::Write, Some(limited)) => {
            write_label(&rt, &mut rt.stdin(), limited, list.as_slice())
        }
        (Mode::Read, Some(limited)) => read_label(&rt, &mut rt.stdin(), limited, list.as_slice()),
    }
}
