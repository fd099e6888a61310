// JAB Code symbols: a message written as a matrix of colour indices, and a sampled matrix read. These are
// the library's calls. Each answers every input with a number and a place, those of documents 01 and 02, and
// its contract fixes the answer and every lent buffer by equality with a definition: `Writes`, `Reads` and
// `WritesThenReads` in `calls` have a field for each.
//
// `write` and `read` make the tests 1 to 5 and hand legal input on to the crates of their stages, with the
// sizes of the symbol.
#![tactic(auto)]

ghost use Rattle.std.specs.Prelude.{◌≡◌};
ghost use Rattle.symbology.specs.Stream.{stream_of};
ghost use Rattle.calls.specs.Refusals.{answer_of};
ghost use Rattle.calls.specs.Sizes.{sizes_answer};
ghost use Rattle.calls.specs.Promises.{Writes, Reads, WritesThenReads};

use calls::{Answer, ReadAnswer, Refusal, SizesAnswer};
use symbology::Params;

// What a caller needs to know of a symbol before it is written or read: columns, rows, C, Pn, the bytes of
// the work buffer, Pg and K, or the refusal 1, 2 or 3.
pub fn sizes(p: Params, list: &[u16]) -> SizesAnswer
    ensures sizes { result ≡ sizes_answer p list.now }
{
    legality::sizes(p, list)
}

// Writes a message. On 0 the whole matrix is stored; a refusal leaves it as it came. The work buffer is all
// zero where test 5 is passed, and untouched before.
pub fn write(p: Params, list: &[u16], message: &[u8], matrix: &mut [u8], work: &mut [u8]) -> Answer
    ensures writes { Writes p list.now (stream_of message.now) matrix.old work.old result matrix.new work.new }
{
    Answer::from(write_tested(p, list, message, matrix, work))
}

// The tests 1 to 5, and the write of legal input.
fn write_tested(
    p: Params,
    list: &[u16],
    message: &[u8],
    matrix: &mut [u8],
    work: &mut [u8],
) -> Result<(), Refusal>
    ensures { Writes p list.now (stream_of message.now) matrix.old work.old (answer_of result) matrix.new work.new }
{
    let s = legality::front_tests(p, list, matrix.len(), work.len())?;
    symbol_writer::write_legal(p, list, message, matrix, work, s)
}

// Reads a sampled matrix. On 0 the first bytes of the message buffer are the message, as many as the answer
// says, and the first numbers of `places` are the places of the bits turned, counted from 1, in the order of
// repair; all else in both is as it came, and a refusal leaves all of both so. More repairs than `places` has
// numbers are 16. The work buffer is left as by a write. The field `mends` of what is promised is demand 3:
// how a read that reaches the checks mends.
pub fn read(
    p: Params,
    list: &[u16],
    matrix: &[u8],
    work: &mut [u8],
    message: &mut [u8],
    places: &mut [u16],
) -> ReadAnswer
    ensures reads { Reads p list.now matrix.now work.old message.old places.old result work.new message.new places.new }
{
    match legality::front_tests(p, list, matrix.len(), work.len()) {
        Ok(s) => symbol_reader::read_legal(p, list, matrix, work, message, places, s),
        Err(refusal) => ReadAnswer::from(refusal),
    }
}

// Writes a message and reads the matrix with the same parameters and list, so that a label is seen to read
// back before it is printed. The answer is the read's, and the write's where that is refused. The field
// `reads_back` of what is promised is demand 2's round trip: on legal input 6 where the message has no room,
// and else the message, with no repair and no wrong stuffing bit. So the read needs no room for places.
pub fn write_and_read(
    p: Params,
    list: &[u16],
    message: &[u8],
    matrix: &mut [u8],
    work: &mut [u8],
    back: &mut [u8],
) -> ReadAnswer
    ensures writes_then_reads { WritesThenReads p list.now message.now matrix.old work.old back.old result matrix.new work.new back.new }
{
    if let Err(refusal) = write_tested(p, list, message, matrix, work) {
        return ReadAnswer::from(refusal);
    }
    read(p, list, matrix, work, back, &mut [])
}
