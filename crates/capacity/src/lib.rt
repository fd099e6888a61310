// What follows from the parameters and the number of list entries before any matrix is looked at: the
// ranges of the parameters, the number of data modules, the capacity and the sizes of the code.
//
// `in_range` and `bits_per_module` answer every input; the others serve the crates above and ask for what
// `in_range` has shown, `as_bits` for counts in the bounds that follow from it.
#![tactic(auto)]

ghost use Rattle.std.specs.Prelude.{◌≤◌, ◌≡◌, true, cond, eqb};
ghost use Rattle.symbology.specs.Ranges.{all_hold};
ghost use Rattle.symbology.specs.Parameters.{in_range};
ghost use Rattle.symbology.specs.Capacity.{bits_per_module, data_modules, as_bits, sizes_of};
ghost use Rattle.capacity.specs.Groups.{side_tests, colour_tests, code_tests};

use symbology::{Bits, Modules, Params, Sizes};

// ---- test 1

// Kind and side-versions are in their ranges.
#[tactic(auto, unfolding(symbology::specs::Parameters::range_tests, symbology::specs::Ranges::all_hold))]
fn sides_in_range(p: Params) -> bool
    ensures { result ≡ all_hold (side_tests p) }
{
    p.kind <= 1 && (1..=32).contains(&p.horizontal) && (1..=32).contains(&p.vertical)
}

// The number of colours is 4 or 8, and the three colour indices are different and below it.
#[tactic(auto, unfolding(symbology::specs::Parameters::range_tests, symbology::specs::Ranges::all_hold))]
fn colours_in_range(p: Params) -> bool
    ensures { result ≡ all_hold (colour_tests p) }
{
    matches!(p.colours, 4 | 8)
        && p.black < p.colours
        && p.cyan < p.colours
        && p.yellow < p.colours
        && p.black != p.cyan
        && p.black != p.yellow
        && p.cyan != p.yellow
}

// wc, wr, mask and turn are in their ranges, and wc is below wr.
#[tactic(auto, unfolding(symbology::specs::Parameters::range_tests, symbology::specs::Ranges::all_hold))]
fn code_in_range(p: Params) -> bool
    ensures { result ≡ all_hold (code_tests p) }
{
    (3..=8).contains(&p.wc) && (4..=9).contains(&p.wr) && p.wc < p.wr && p.mask <= 7 && p.turn <= 1
}

// Test 1: every parameter is in its range.
#[tactic(auto, using(crate::proofs::Groups::groups))]
pub fn in_range(p: Params) -> bool
    ensures { result ≡ in_range p }
{
    sides_in_range(p) && colours_in_range(p) && code_in_range(p)
}

// ---- sizes

// The modules of four finder patterns, or of four alignment patterns.
fn corner_modules(kind: u32) -> usize
    ensures { (result ≡ cond (eqb kind 0) 68 28) × (result ≤ 68) }
{
    if kind == 0 { 68 } else { 28 }
}

// D: the modules that are neither of a pattern nor of a list entry.
pub fn data_modules(p: Params, listed: usize) -> Modules
    requires { in_range p ≡ true }
    ensures { (result ≡ data_modules p.kind p.horizontal p.vertical listed) × (result.0 ≤ 21025) }
{
    let all = tables::side_size(p.horizontal) * tables::side_size(p.vertical);
    let inner = tables::inner_patterns(p.horizontal as usize, p.vertical as usize);
    let unpatterned = all.saturating_sub(7 * inner + corner_modules(p.kind));
    Modules(unpatterned.saturating_sub(listed) as u32)
}

// The most bits that a module may represent.
const MOST_BITS: u32 = 8;

// The bits that a module of one of so many colours represents: as few as tell the colours apart.
pub fn bits_per_module(colours: u32) -> u32
    ensures { result ≡ bits_per_module colours }
{
    for depth in 0..MOST_BITS {
        if colours <= 1 << depth {
            return depth;
        }
    }
    MOST_BITS
}

// The one way from a count of modules to a count of bits.
#[tactic(auto, unfolding(symbology::specs::Capacity::as_bits))]
pub fn as_bits(m: Modules, depth: u32) -> Bits
    requires { (m.0 ≤ 21025) × (depth ≤ 3) }
    ensures { result ≡ as_bits m depth }
{
    Bits(m.0 * depth)
}

// C, and what follows from it.
pub fn sizes_of(p: Params, listed: usize) -> Sizes
    requires { in_range p ≡ true }
    ensures { result ≡ sizes_of p listed }
{
    let depth = bits_per_module(p.colours);
    let bits = as_bits(data_modules(p, listed), depth);
    let c = bits.0 as usize;
    let wr = p.wr as usize;
    let wc = p.wc as usize;
    let block = c / wr;
    let gross = block * wr;
    let checks = block * wc;
    Sizes {
        columns: tables::side_size(p.horizontal),
        rows: tables::side_size(p.vertical),
        depth: depth as usize,
        capacity: c,
        wr,
        block,
        gross,
        checks,
        net: block * (wr - wc),
        work: checks * gross.div_ceil(8) + 8 * c,
    }
}
