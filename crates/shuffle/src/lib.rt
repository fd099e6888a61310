// The permutation of 002, Annex E, in place: of bytes, forwards and backwards, and of numbers of two
// bytes each, forwards. A state of the generator is handed in and, forwards, handed on. Forwards it is one
// permutation of items of WIDTH bytes each, a byte or a number. At most 4,096 are asked for, the most bits of a
// symbol: a bound of a number, for which a type would be no plainer.
//
// Backwards the exchanges are made in the reverse order. The generator is run to its last state once
// and then back state by state, so that no list of places is kept.
#![tactic(auto)]

ghost use Rattle.std.specs.Prelude.{◌+◌, ◌*◌, ◌≤◌, ◌<◌, ◌≡◌, length};
ghost use Rattle.symbology.specs.Generator.{state_after};
ghost use Rattle.symbology.specs.Shuffle.{shuffled, unshuffled};
ghost use Rattle.shuffle.specs.Items.{exchanged_items, permuted_items};
ghost use Rattle.shuffle.specs.Numbers.{NumbersShuffled};

// The state from which the C bits are interleaved (002, 4.5).
pub const INTERLEAVING_SEED: u64 = 226759;

// ---- items of one size

// Exchanges the items i and j of those from `at` on, WIDTH bytes each.
fn exchange<const WIDTH: usize>(xs: &mut [u8], at: usize, i: usize, j: usize)
    requires { (at + WIDTH * i + WIDTH ≤ length xs.old) × (at + WIDTH * j + WIDTH ≤ length xs.old) }
    ensures { xs.new ≡ exchanged_items WIDTH at i j xs.old }
{
    for k in 0..WIDTH {
        xs.swap(at + WIDTH * i + k, at + WIDTH * j + k);
    }
}

// Permutes the n items from `at` on, WIDTH bytes each, and answers the state after the draws.
fn permute<const WIDTH: usize>(xs: &mut [u8], at: usize, n: usize, state: u64) -> u64
    requires { (n ≤ 4096) × (at + WIDTH * n ≤ length xs.old) }
    ensures { (xs.new ≡ permuted_items WIDTH at n state xs.old) × (result ≡ state_after n state) }
{
    let mut s = state;
    for last in (0..n).rev() {
        s = draws::next_state(s);
        exchange::<WIDTH>(xs, at, draws::drawn_place(s, last + 1), last);
    }
    s
}

// ---- bytes

// Permutes the bytes, and answers the state after the draws.
pub fn shuffle(xs: &mut [u8], state: u64) -> u64
    requires { length xs.old ≤ 4096 }
    ensures { (xs.new ≡ shuffled 0 state xs.old) × (result ≡ state_after (length xs.old) state) }
{
    let n = xs.len();
    permute::<1>(xs, 0, n, state)
}

// Undoes the permutation made from the same state.
pub fn unshuffle(xs: &mut [u8], state: u64)
    requires { length xs.old ≤ 4096 }
    ensures { xs.new ≡ unshuffled 0 state xs.old }
{
    let n = xs.len();
    let mut s = draws::state_after(n, state);
    for last in 0..n {
        xs.swap(draws::drawn_place(s, last + 1), last);
        s = draws::previous_state(s);
    }
}

// ---- numbers of two bytes

// Permutes the n numbers from `at` on, and answers the state after the draws.
pub fn shuffle_numbers(xs: &mut [u8], at: usize, n: usize, state: u64) -> u64
    requires { (n ≤ 4096) × (at + 2 * n ≤ length xs.old) }
    ensures { NumbersShuffled at n state xs.old xs.new × (result ≡ state_after n state) }
{
    permute::<2>(xs, at, n, state)
}
