// The reserved list, lent by the caller as numbers, which is how C has it: three to an entry, column, row and
// colour index, columns and rows counted from 1 and entries from 0.
//
// `judge_list` is test 2. For each entry it looks through those before it: n entries cost n × n / 2
// comparisons, half a million for the 1,024 that are allowed. `first_entry` looks through n of them
// once. `judge_list` answers every input; the others ask for entries that the list has. That an entry is in the
// list is asked of its number: `Entry` is what is read there, and a type for the number would only carry the bound.
#![tactic(auto)]

ghost use Rattle.std.specs.Prelude.{◌+◌, ◌*◌, ◌≤◌, ◌<◌, ◌≡◌, not, ◌||◌, length};
ghost use Rattle.symbology.specs.Ranges.{within, lowest, found};
ghost use Rattle.symbology.specs.Sides.{columns, rows};
ghost use Rattle.symbology.specs.Reserved.{entry_column, entry_row, entry_colour, entry_at, first_entry, bad_at, list_verdict};

use patterns::Patterns;
use symbology::Params;

// An entry: the column and row where it stands, and its colour index.
#[derive(Clone, Copy)]
pub struct Entry {
    pub column: usize,
    pub row: usize,
    pub colour: usize,
}

impl Entry {
    // The entry k of a list.
    pub fn at(list: &[u16], k: usize) -> Entry
        requires { 3 * k + 3 ≤ length list.now }
        ensures column { (result.column ≡ entry_column list.now k) × (result.column < 65536) }
        ensures row { (result.row ≡ entry_row list.now k) × (result.row < 65536) }
        ensures colour { (result.colour ≡ entry_colour list.now k) × (result.colour < 65536) }
    {
        Entry {
            column: usize::from(list[3 * k]),
            row: usize::from(list[3 * k + 1]),
            colour: usize::from(list[3 * k + 2]),
        }
    }
}

#[tactic(auto, unfolding(symbology::specs::Reserved::entry_at))]
fn stands_at(list: &[u16], k: usize, x: usize, y: usize) -> bool
    requires { 3 * k + 3 ≤ length list.now }
    ensures { result ≡ entry_at list.now x y k }
{
    let entry = Entry::at(list, k);
    entry.column == x && entry.row == y
}

// The first of the n first entries that stands at column x, row y.
pub fn first_entry(list: &[u16], n: usize, x: usize, y: usize) -> Option<usize>
    requires { 3 * n ≤ length list.now }
    ensures { result ≡ found n (first_entry list.now n x y) }
{
    for k in 0..n {
        if stands_at(list, k, x, y) {
            return Some(k);
        }
    }
    None
}

fn is_outside(p: Params, x: usize, y: usize) -> bool
    ensures { result ≡ (not (within 1 (columns p) x) || not (within 1 (rows p) y)) }
{
    let across = 1..=tables::side_size(p.horizontal);
    let down = 1..=tables::side_size(p.vertical);
    !across.contains(&x) || !down.contains(&y)
}

// Entry k is outside the symbol, on a pattern, at the place of an earlier one, or of a colour that
// the symbol does not have.
#[tactic(auto, unfolding(symbology::specs::Reserved::bad_at, symbology::specs::Reserved::bad_entry, symbology::specs::Patterns::covered))]
fn is_bad(patterns: &Patterns, list: &[u16], k: usize) -> bool
    requires { 3 * k + 3 ≤ length list.now }
    ensures { result ≡ bad_at patterns.now.params list.now k }
{
    let entry = Entry::at(list, k);
    is_outside(patterns.params, entry.column, entry.row)
        || patterns.colour_at(entry.column, entry.row).is_some()
        || first_entry(list, k, entry.column, entry.row).is_some()
        || patterns.params.colours as usize <= entry.colour
}

// The first bad one of the n first entries.
fn first_bad(patterns: &Patterns, list: &[u16], n: usize) -> Option<usize>
    requires { 3 * n ≤ length list.now }
    ensures { result ≡ found n (lowest (bad_at patterns.now.params list.now) n 0) }
{
    for k in 0..n {
        if is_bad(patterns, list, k) {
            return Some(k);
        }
    }
    None
}

// Test 2, whatever the parameters are: the place of the list's first fault, if it has one.
#[tactic(auto, unfolding(symbology::specs::Reserved::list_verdict, symbology::specs::Reserved::entry_verdict))]
pub fn judge_list(p: Params, list: &[u16]) -> Result<(), usize>
    ensures { result ≡ list_verdict p list.now }
{
    let n = list.len() / 3;
    if list.len() % 3 != 0 {
        return Err(n);
    }
    if 1024 < n {
        return Err(1024);
    }
    match first_bad(&Patterns::of(p), list, n) {
        Some(place) => Err(place),
        None => Ok(()),
    }
}
