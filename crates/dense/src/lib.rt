// The dense rows of a check matrix in lent bytes: its bits, its rows added, a word stored as a row, its
// checks judged. The rows lie in front of the buffer, `stride` bytes each, eight columns to a byte, the
// first column lowest. They are the front of the work buffer, which other areas share, so that buffer and
// stride are arguments and no struct.
#![tactic(auto)]

ghost use Rattle.std.specs.Prelude.{◌+◌, ◌*◌, ◌/◌, ◌≤◌, ◌<◌, ◌≡◌, length};
ghost use Rattle.symbology.specs.Ranges.{tally};
ghost use Rattle.laws.specs.Gf2.{parity, dot};
ghost use Rattle.dense.specs.Dense.{byte_bit, dense_bits, Turned, RowAdded, PackedIn};

// The bit of a row in a column.
pub fn bit(xs: &[u8], stride: usize, i: usize, j: usize) -> bool
    requires { i * stride + j / 8 < length xs.now }
    ensures { result ≡ dense_bits xs.now stride i j }
{
    (xs[i * stride + j / 8] >> (j % 8)) % 2 == 1
}

// Turns the bit of a row in a column.
pub fn turn(xs: &mut [u8], stride: usize, i: usize, j: usize)
    requires { (i * stride + j / 8 < length xs.old) × (j / 8 < stride) }
    ensures { Turned stride i j xs.old xs.new }
{
    xs[i * stride + j / 8] ^= 1 << (j % 8);
}

// Adds the first n bytes of row `from` to another row `to`. The bytes go by their places: to lend
// two rows of one buffer at once takes a split, which depends on which of them lies first.
pub fn add_row(xs: &mut [u8], stride: usize, to: usize, from: usize, n: usize)
    requires { (to ≡ from → ⊥) × (n ≤ stride) × (to * stride + stride ≤ length xs.old) × (from * stride + stride ≤ length xs.old) }
    ensures { RowAdded stride to from n xs.old xs.new }
{
    let target = to * stride;
    let source = from * stride;
    for b in 0..n {
        xs[target + b] ^= xs[source + b];
    }
}

// Stores a word of n bits, a byte each from `word` on, as row k, with 0 in the columns past n.
pub fn pack(xs: &mut [u8], stride: usize, k: usize, word: usize, n: usize)
    requires { (n ≤ stride * 8) × (k * stride + stride ≤ word) × (word + n ≤ length xs.old) }
    ensures { PackedIn stride k word n xs.old xs.new }
{
    let row = k * stride;
    lent::clear(xs, row, row + stride);
    for j in 0..n {
        if xs[word + j] % 2 == 1 {
            turn(xs, stride, k, j);
        }
    }
}

// Whether a byte has an odd number of ones (1) or not (0): a byte, since that is what a mark is kept as.
fn odd_ones(x: u8) -> u8
    ensures { result ≡ tally (parity 8 (byte_bit x)) }
{
    (x.count_ones() % 2) as u8
}

// Whether the rows i and k have a 1 in an odd number of columns in common (1) or not (0). Where row k is a
// word, that is whether the check of row i is unmet in it.
pub fn parity(xs: &[u8], stride: usize, i: usize, k: usize) -> u8
    requires { (i * stride + stride ≤ length xs.now) × (k * stride + stride ≤ length xs.now) }
    ensures { result ≡ tally (dot (stride * 8) (dense_bits xs.now stride i) (dense_bits xs.now stride k)) }
{
    let row = &xs[i * stride..i * stride + stride];
    let word = &xs[k * stride..k * stride + stride];
    // The bits in common, all bytes added up bit by bit without a carry.
    let common = row.iter().zip(word).fold(0, |sum, (x, y)| sum ^ x & y);
    odd_ones(common)
}
