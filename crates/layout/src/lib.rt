// The matrix of a symbol: what each module holds, the masks, filling a matrix with the C bits and
// sampling them from one.
//
// `fill` and `sample` serve the crates above and ask for what those have tested; `first_bad_module` is
// test 7. Filling and sampling pass the modules once, column by column, with a count of the data
// modules passed; test 7 is a pass of its own. For each module, filling and sampling look through the
// reserved list: with the 24 entries of a small symbol that is some ten thousand comparisons, and
// where test 3 is passed never more than 3.3 million, since no such symbol has more than 3,185
// modules and no list more than 1,024 entries.
#![tactic(auto)]

ghost use Rattle.std.specs.Prelude.{◌+◌, ◌*◌, ◌≤◌, ◌<◌, ◌≡◌, true, length, get_or, take, drop, set, Ok};
ghost use Rattle.std.proofs.lemmas.List.Edits.{sets};
ghost use Rattle.symbology.specs.Bits.{value, bits};
ghost use Rattle.symbology.specs.Parameters.{in_range};
ghost use Rattle.symbology.specs.Ranges.{found};
ghost use Rattle.symbology.specs.Sides.{columns, rows};
ghost use Rattle.symbology.specs.Capacity.{bits_per_module};
ghost use Rattle.symbology.specs.Reserved.{list_verdict};
ghost use Rattle.symbology.specs.Placement.{colour_index, cell_at, rank, mask_generators, mask_at, module_at, filled, bits_at, sampled, first_bad_module};
ghost use Rattle.layout.specs.Walk.{SizedSymbol, AtModule, FilledTo, SampledTo};

use patterns::Patterns;
use reserved::Entry;
use symbology::{Modules, Params, PatternColour};

// A symbol that is filled or sampled: its patterns, with the parameters, and its reserved list, which
// have passed the tests 1 and 2.
#[derive(Clone, Copy)]
struct Symbol<'a> {
    patterns: Patterns,
    list: &'a [u16],
    ghost inside_range: { in_range patterns.params ≡ true },
    ghost sound: { list_verdict patterns.params list.now ≡ Ok tt },
}

// Columns c and rows r count from 0. They are two numbers, as in the definitions: a type for a module's place
// would be taken apart again in each function.
impl<'a> Symbol<'a> {
    fn of(p: Params, list: &'a [u16]) -> Symbol<'a>
        requires { (in_range p ≡ true) × (list_verdict p list.now ≡ Ok tt) }
        ensures { (result.patterns.params ≡ p) × (result.list.now ≡ list.now) }
    {
        Symbol {
            patterns: Patterns::of(p),
            list,
        }
    }

    // Columns and rows are a function each: one for both sides would have to be told which.
    fn columns(&self) -> usize
        ensures { (result ≡ columns self.now.patterns.params) × (result ≤ 145) }
    {
        tables::side_size(self.patterns.params.horizontal)
    }

    fn rows(&self) -> usize
        ensures { (result ≡ rows self.now.patterns.params) × (result ≤ 145) }
    {
        tables::side_size(self.patterns.params.vertical)
    }

    // The index of the module (c, r) in a matrix.
    fn index_of(&self, c: usize, r: usize) -> usize
        requires { (c < columns self.now.patterns.params) × (r < rows self.now.patterns.params) }
        ensures index { result ≡ r * columns self.now.patterns.params + c }
        ensures inside { result < rows self.now.patterns.params * columns self.now.patterns.params }
    {
        r * self.columns() + c
    }

    fn depth(&self) -> usize
        ensures { (result ≡ bits_per_module self.now.patterns.params.colours) × (result ≤ 3) }
    {
        capacity::bits_per_module(self.patterns.params.colours) as usize
    }

    // The bits of the k data modules before a module: the place of its own among them.
    fn bits_before(&self, k: usize) -> usize
        requires { k ≤ 21025 }
        ensures { result ≡ bits_per_module self.now.patterns.params.colours * k }
    {
        let before = Modules(k as u32);
        let depth = capacity::bits_per_module(self.patterns.params.colours);
        capacity::as_bits(before, depth).0 as usize
    }

    // ---- what a module holds: the colour index that pattern or list fix, none in a data module

    fn colour_index(&self, colour: PatternColour) -> u8
        ensures { result ≡ colour_index self.now.patterns.params colour }
    {
        match colour {
            PatternColour::Black => self.patterns.params.black as u8,
            PatternColour::Cyan => self.patterns.params.cyan as u8,
            PatternColour::Yellow => self.patterns.params.yellow as u8,
        }
    }

    fn cell_at(&self, c: usize, r: usize) -> Option<u8>
        requires { (c < 256) × (r < 256) }
        ensures { result ≡ cell_at self.now.patterns.params self.now.list.now c r }
    {
        if let Some(k) = reserved::first_entry(self.list, self.list.len() / 3, c + 1, r + 1) {
            return Some(Entry::at(self.list, k).colour as u8);
        }
        let colour = self.patterns.colour_at(c + 1, r + 1)?;
        Some(self.colour_index(colour))
    }

    fn mask_at(&self, c: usize, r: usize) -> u8
        requires { (c < 256) × (r < 256) }
        ensures { result ≡ mask_at self.now.patterns.params.mask self.now.patterns.params.colours c r }
    {
        let colours = self.patterns.params.colours as usize;
        (mask_generator(self.patterns.params.mask, c, r) % colours) as u8
    }

    // ---- filling

    // Stores the module (c, r), before which k data modules stand, and answers how many stand before the
    // module below it.
    fn fill_module(&self, bits: &[u8], matrix: &mut [u8], c: usize, r: usize, k: usize) -> usize
        requires at { AtModule self.now.patterns.params self.now.list.now (length bits.now) (length matrix.old) c r k }
        requires inside { r < rows self.now.patterns.params }
        ensures next { result ≡ rank self.now.patterns.params self.now.list.now c (r + 1) }
        ensures stored { matrix.new ≡ set matrix.old (r * columns self.now.patterns.params + c) (module_at self.now.patterns.params self.now.list.now bits.now c r) }
    {
        let at = self.index_of(c, r);
        let mask = self.mask_at(c, r);
        if let Some(colour) = self.cell_at(c, r) {
            matrix[at] = colour;
            return k;
        }
        matrix[at] = unmasked_in(bits, self.bits_before(k), self.depth()) ^ mask;
        k + 1
    }

    // ---- sampling

    // Stores the bits of the module (c, r), before which k data modules stand, and answers how many stand
    // before the module below it.
    fn sample_module(&self, matrix: &[u8], out: &mut [u8], c: usize, r: usize, k: usize) -> usize
        requires at { AtModule self.now.patterns.params self.now.list.now (length out.old) (length matrix.now) c r k }
        requires inside { r < rows self.now.patterns.params }
        ensures next { result ≡ rank self.now.patterns.params self.now.list.now c (r + 1) }
        ensures stored { out.new ≡ sets out.old (bits_per_module self.now.patterns.params.colours * k) (bits_at self.now.patterns.params self.now.list.now matrix.now c r) }
    {
        let at = self.index_of(c, r);
        if self.cell_at(c, r).is_some() {
            return k;
        }
        let index = matrix[at] ^ self.mask_at(c, r);
        bitfield::put_bits(out, self.bits_before(k), self.depth(), usize::from(index));
        k + 1
    }
}

// Table 20, before the remainder by the number of colours. A row is a line; a table of closures would hide them.
#[tactic(auto, unfolding(symbology::specs::Placement::mask_generators))]
fn mask_generator(mask: u32, x: usize, y: usize) -> usize
    requires { (x < 256) × (y < 256) }
    ensures { result ≡ get_or (mask_generators x y) mask 0 }
{
    match mask {
        0 => x + y,
        1 => x,
        2 => y,
        3 => x / 2 + y / 3,
        4 => x / 3 + y / 2,
        5 => (x + y) / 2 + (x + y) / 3,
        6 => x * x * y % 7 + (2 * x * x + 2 * y) % 19,
        7 => x * y * y % 5 + (2 * x + y * y) % 13,
        _ => 0,
    }
}

// The number that n bits write, one to a byte, the first the highest: a colour index before its mask.
fn unmasked_in(bits: &[u8], at: usize, n: usize) -> u8
    requires { (at + n ≤ length bits.now) × (n ≤ 8) }
    ensures { result ≡ value (take n (drop at bits.now)) }
{
    bitfield::bits_value(bits, at, n) as u8
}

// Fills the whole matrix: patterns, list entries, and the C bits in the data modules, masked. The walk is
// the two `for` lines, here and in `sample`: passing a step to one walk would take more lines than it saves.
pub fn fill(p: Params, list: &[u16], bits: &[u8], matrix: &mut [u8])
    requires { SizedSymbol p list.now (length bits.now) (length matrix.old) }
    ensures { matrix.new ≡ filled p list.now bits.now }
{
    let symbol = Symbol::of(p, list);
    let mut k = 0;
    for c in 0..symbol.columns() {
        // k data modules are filled before column c.
        for r in 0..symbol.rows() {
            k = symbol.fill_module(bits, matrix, c, r, k);
        }
    }
}

// Samples the C bits of a matrix, one to a byte, the mask undone. Whatever the modules hold is taken;
// that each is a colour index is test 7.
pub fn sample(p: Params, list: &[u16], matrix: &[u8], out: &mut [u8])
    requires { SizedSymbol p list.now (length out.old) (length matrix.now) }
    ensures { out.new ≡ sampled p list.now matrix.now }
{
    let symbol = Symbol::of(p, list);
    let mut k = 0;
    for c in 0..symbol.columns() {
        // k data modules are sampled before column c.
        for r in 0..symbol.rows() {
            k = symbol.sample_module(matrix, out, c, r, k);
        }
    }
}

// Test 7: the first module that is no colour index.
pub fn first_bad_module(colours: u32, matrix: &[u8]) -> Option<usize>
    ensures { result ≡ found (length matrix.now) (first_bad_module colours matrix.now) }
{
    matrix
        .iter()
        .position(|module| colours <= u32::from(*module))
}
