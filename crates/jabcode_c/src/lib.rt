// The calls of `jabcode` for C: include/jabcode.h declares them. A slice is a pointer and a length there,
// in this order. The parameters are a struct of `uint32_t` members there and an answer one of `uint64_t`
// members, so that they lie in memory as the arrays here do, and every number is given as it is.
#![tactic(auto)]

ghost use Rattle.std.specs.Prelude.{◌≡◌};
ghost use Rattle.calls.specs.Sizes.{sizes_answer};
ghost use Rattle.jabcode_c.specs.Words.{params_of, sizes_words};
ghost use Rattle.jabcode_c.specs.Calls.{WritesFor, ReadsFor};

use symbology::Params;

// The parameters in the order of the header. This is no `From`: neither type is of this crate.
fn params_of(w: &[u32; 11]) -> Params
    ensures { result ≡ params_of w.now }
{
    Params {
        kind: w[0],
        horizontal: w[1],
        vertical: w[2],
        colours: w[3],
        black: w[4],
        cyan: w[5],
        yellow: w[6],
        wc: w[7],
        wr: w[8],
        mask: w[9],
        turn: w[10],
    }
}

// What a caller needs to know of a symbol before it is written or read.
#[unsafe(no_mangle)]
pub extern "C" fn jab_sizes(params: &[u32; 11], reserved: &[u16], answer: &mut [u64; 9])
    ensures sizes { answer.new ≡ sizes_words (sizes_answer (params_of params.now) reserved.now) }
{
    let a = jabcode::sizes(params_of(params), reserved);
    *answer = [
        a.number as u64,
        a.place as u64,
        a.columns as u64,
        a.rows as u64,
        a.capacity as u64,
        a.net as u64,
        a.work as u64,
        a.gross as u64,
        a.checks as u64,
    ];
}

// Writes a message.
#[unsafe(no_mangle)]
pub extern "C" fn jab_write(
    params: &[u32; 11],
    reserved: &[u16],
    message: &[u8],
    matrix: &mut [u8],
    work: &mut [u8],
    answer: &mut [u64; 2],
)
    ensures writes { WritesFor params.now reserved.now message.now matrix.old work.old matrix.new work.new answer.new }
{
    let a = jabcode::write(params_of(params), reserved, message, matrix, work);
    *answer = [a.number as u64, a.place as u64];
}

// Reads a sampled matrix. Its contract has demand 3, as that of `jabcode::read`.
#[unsafe(no_mangle)]
pub extern "C" fn jab_read(
    params: &[u32; 11],
    reserved: &[u16],
    matrix: &[u8],
    work: &mut [u8],
    message: &mut [u8],
    places: &mut [u16],
    answer: &mut [u64; 6],
)
    ensures reads { ReadsFor params.now reserved.now matrix.now work.old message.old places.old work.new message.new places.new answer.new }
{
    let a = jabcode::read(params_of(params), reserved, matrix, work, message, places);
    *answer = [
        a.number as u64,
        a.place as u64,
        a.length as u64,
        a.repairs as u64,
        a.unmet as u64,
        a.stuffing as u64,
    ];
}
