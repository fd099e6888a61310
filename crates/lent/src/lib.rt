// Lent buffers: numbers of two bytes in them, clearing, and the work buffer with its areas.
//
// Two parts of one buffer cannot be lent at once where one of them is stored to. So the functions of
// error correction take the whole work buffer and the places of their areas, and each says in which areas
// it changes the buffer at most.
#![tactic(auto)]

ghost use Rattle.std.specs.Prelude.{◌+◌, ◌*◌, ◌≤◌, ◌<◌, ◌≡◌, length};
ghost use Rattle.std.proofs.lemmas.List.Edits.{sets};
ghost use Rattle.lent.specs.Buffer.{number_at, numbers_at, stored_number, Cleared, CountedUp};
ghost use Rattle.lent.specs.Work.{areas_of, CodeSizes};

use symbology::Sizes;

// The areas of the work buffer. In front lie the dense rows of a check matrix, `checks` rows of
// `stride` bytes, and one more row, for a word in that form; behind them `checks` marks of a byte
// each, from `marks` on; then the word, `gross` bits of a byte each, from `word` on; then `gross`
// numbers of two bytes each, from `numbers` on; `net` message bits of a byte each, from `message` on; and
// the places of the repairs, at most `checks` numbers of two bytes each, from `repaired` on.
//
// They go beside the buffer and not in one struct with it: one that holds a lent buffer has to say in each
// clause that it holds the same one still.
#[derive(Clone, Copy)]
pub struct Areas {
    pub checks: usize,
    pub gross: usize,
    pub net: usize,
    pub stride: usize,
    pub marks: usize,
    pub word: usize,
    pub numbers: usize,
    pub message: usize,
    pub repaired: usize,
}

// Where the areas of the work buffer lie for the sizes of a symbol. The area of the word has room for all
// C bits.
pub fn areas_for(s: Sizes) -> Areas
    requires { CodeSizes s }
    ensures { result ≡ areas_of s }
{
    let stride = s.gross.div_ceil(8);
    let marks = s.checks * stride + stride;
    let word = marks + s.checks;
    let numbers = word + s.capacity;
    let message = numbers + 2 * s.gross;
    Areas {
        checks: s.checks,
        gross: s.gross,
        net: s.net,
        stride,
        marks,
        word,
        numbers,
        message,
        repaired: message + s.net,
    }
}

// The number of the two bytes at a place, the lower byte first.
pub fn number_at(xs: &[u8], at: usize) -> usize
    requires { at + 2 ≤ length xs.now }
    ensures { (result ≡ number_at xs.now at) × (result < 65536) }
{
    usize::from(u16::from_le_bytes([xs[at], xs[at + 1]]))
}

// Stores a number in the two bytes at a place.
pub fn put_number(xs: &mut [u8], at: usize, v: usize)
    requires { (at + 2 ≤ length xs.old) × (v < 65536) }
    ensures { xs.new ≡ stored_number xs.old at v }
{
    let [lower, upper] = (v as u16).to_le_bytes();
    xs[at] = lower;
    xs[at + 1] = upper;
}

// Stores 0 in the places from `from` up to `to`.
pub fn clear(xs: &mut [u8], from: usize, to: usize)
    requires { (from ≤ to) × (to ≤ length xs.old) }
    ensures { Cleared from to xs.old xs.new }
{
    xs[from..to].fill(0);
}

// Stores the numbers 0, 1, .., n - 1 from `at` on.
pub fn count_up(xs: &mut [u8], at: usize, n: usize)
    requires { (n ≤ 4096) × (at + 2 * n ≤ length xs.old) }
    ensures { CountedUp at n xs.old xs.new }
{
    for j in 0..n {
        put_number(xs, at + 2 * j, j);
    }
}

// Stores the n numbers of two bytes from `at` on in the first n places of a slice.
pub fn copy_numbers(xs: &[u8], at: usize, n: usize, out: &mut [u16])
    requires { (at + 2 * n ≤ length xs.now) × (n ≤ length out.old) }
    ensures { out.new ≡ sets out.old 0 (numbers_at xs.now at n) }
{
    for i in 0..n {
        out[i] = number_at(xs, at + 2 * i) as u16;
    }
}
