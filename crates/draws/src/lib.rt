// The random number generator of 002, Annex E, forwards and backwards, and the place of a draw.
#![tactic(auto)]

ghost use Rattle.std.specs.Prelude.{◌≡◌, ◌*◌, ◌%◌, ◌^◌, ◌<◌, ◌≤◌};
ghost use Rattle.symbology.specs.Generator.{next_state, temper, draw, state_after};
ghost use Rattle.symbology.specs.Place.{nearest_single, place_of};
ghost use Rattle.symbology.specs.Shuffle.{drawn_place};
ghost use Rattle.draws.specs.Backwards.{previous_state};

// The product without its carry, from the products of 32-bit halves. That of the two upper halves
// is all carry. It stays beside `u64::wrapping_mul`, since the requirements name a wrapping multiply of
// the program's own.
fn wrapping_mul(x: u64, y: u64) -> u64
    ensures { result ≡ x * y % 2 ^ 64 }
{
    let x0 = x & 0xffff_ffff;
    let x1 = x >> 32;
    let y0 = y & 0xffff_ffff;
    let y1 = y >> 32;
    let cross = (x1 * y0).wrapping_add(x0 * y1);
    (x0 * y0).wrapping_add(cross << 32)
}

// The state after a state.
pub fn next_state(s: u64) -> u64
    ensures { result ≡ next_state s }
{
    wrapping_mul(6364136223846793005, s).wrapping_add(1)
}

// The state before a state: 1 taken away, and the product with the inverse of the generator's factor.
pub fn previous_state(s: u64) -> u64
    ensures { result ≡ previous_state s }
{
    wrapping_mul(13877824140714322085, s.wrapping_add(18446744073709551615))
}

// The state after n draws.
pub fn state_after(n: usize, s: u64) -> u64
    ensures { result ≡ state_after n s }
{
    let mut state = s;
    for _ in 0..n {
        state = next_state(state);
    }
    state
}

fn temper(x: u32) -> u32
    ensures { result ≡ temper x }
{
    let mut y = x;
    y ^= y >> 11;
    y ^= y << 7 & 0x9D2C_5680;
    y ^= y << 15 & 0xEFC6_0000;
    y ^= y >> 18;
    y
}

// The number drawn in a state.
pub fn draw(s: u64) -> u32
    ensures { result ≡ draw s }
{
    temper((s >> 32) as u32)
}

// x rounded to the 24 binary digits of single precision, to nearest, ties to even. Its digits are moved
// up, so that the first stands at 2^62 and the last one kept at 2^39, rounded there and moved back. The
// carry is half a unit of the last digit kept, and 1 less where that digit is even.
fn nearest_single(x: u64) -> u64
    requires { x < 2 ^ 63 }
    ensures { result ≡ nearest_single x }
{
    let up = u64::leading_zeros(2 * x + 1);
    let moved = x << up;
    let odd = (moved >> 39) % 2;
    let carry = 274877906943 + odd;
    (((moved + carry) >> 39) << 39) >> up
}

// The place of a draw with n places left, as single precision gives it, in whole numbers: the draw and
// its product with n are rounded once each, and the division by 2^32 rounds nothing. Where its whole
// part is n, the place is n - 1.
pub fn place(d: u32, n: u32) -> u32
    requires { (0 < n) × (n ≤ 4096) }
    ensures { (result ≡ place_of d n) × (result < n) }
{
    let whole = nearest_single(nearest_single(d as u64) * n as u64) >> 32;
    if whole == n as u64 {
        n - 1
    } else {
        whole as u32
    }
}

// The place drawn in a state with n places left.
pub fn drawn_place(s: u64, n: usize) -> usize
    requires { (0 < n) × (n ≤ 4096) }
    ensures { (result ≡ drawn_place s n) × (result < n) }
{
    place(draw(s), n as u32) as usize
}
