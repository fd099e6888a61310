// The side lister's work: a decimal number in, the side of that side-version out as text.
//
// `list_side` is the whole of it for an input in memory. A program whose input may be of any length
// calls `scan` for each piece of it, and at the end `number_text` with what `number_of` gives.
#![tactic(auto)]

ghost use Rattle.std.specs.Prelude.{◌+◌, ◌++◌, ◌≤◌, ◌<◌, ◌≡◌, length, IfSome};
ghost use Rattle.std.proofs.lemmas.List.Edits.{sets};
ghost use Rattle.symbology.specs.Sides.{cores_of};
ghost use Rattle.lister.specs.Decimal.{decimal};
ghost use Rattle.lister.specs.Numeral.{digit_of};
ghost use Rattle.lister.specs.Scanning.{grown, scanned, scanned_all, scan_number};
ghost use Rattle.lister.specs.Listing.{number_line, cores_line, side_text, number_text, listing};

use arrayvec::ArrayString;

const REFUSED: &str = "refused 1\n";

// ---- the number that a text is, read piece by piece

// What the bytes read so far are: none; digits, which write this number or, where it is above 32,
// some number above 32; such digits and a newline; or no number, whatever follows.
#[derive(Clone, Copy)]
pub enum Numeral {
    Start,
    Digits(usize),
    Ended(usize),
    Broken,
}

// A number with one more digit. Above 32 it is no side-version any more and stays as it is, so that
// it fits however many digits follow.
fn grow(n: usize, digit: usize) -> usize
    requires { digit < 10 }
    ensures { result ≡ grown n digit }
{
    if 32 < n { n } else { 10 * n + digit }
}

// The number that a digit writes.
fn digit_of(b: u8) -> Option<usize>
    ensures value { result ≡ digit_of b }
    ensures small { IfSome result (λ d. d < 10) }
{
    match b {
        b'0'..=b'9' => Some(usize::from(b - b'0')),
        _ => None,
    }
}

// The state after one more byte.
#[tactic(auto, unfolding(crate::specs::Scanning::scanned))]
fn scan_byte(state: Numeral, b: u8) -> Numeral
    ensures { result ≡ scanned state b }
{
    match (state, digit_of(b)) {
        (Numeral::Start, Some(digit)) => Numeral::Digits(digit),
        (Numeral::Digits(n), Some(digit)) => Numeral::Digits(grow(n, digit)),
        (Numeral::Digits(n), None) if b == b'\n' => Numeral::Ended(n),
        _ => Numeral::Broken,
    }
}

// The state after a piece of the input.
pub fn scan(state: Numeral, bytes: &[u8]) -> Numeral
    ensures { result ≡ scanned_all state bytes.now }
{
    bytes.iter().fold(state, |s, b| scan_byte(s, *b))
}

// The number that an input in this state is, where it is one. Above 32 it is some number above 32,
// which need not be the input's own.
pub fn number_of(state: Numeral) -> Option<usize>
    ensures { result ≡ scan_number state }
{
    match state {
        Numeral::Digits(n) | Numeral::Ended(n) => Some(n),
        Numeral::Start | Numeral::Broken => None,
    }
}

// ---- the text of a side: 48 bytes hold any of them

// Puts a number in decimal behind a text.
fn push_decimal(text: &mut ArrayString<48>, n: u8)
    requires { length text.old.bytes ≤ 45 }
    ensures appended { text.new.bytes ≡ text.old.bytes ++ decimal n }
    ensures short { length text.new.bytes ≤ length text.old.bytes + 3 }
{
    let mut digits = itoa::Buffer::new();
    text.push_str(digits.format(n));
}

#[tactic(auto, unfolding(crate::specs::Listing::number_line))]
fn push_number_line(text: &mut ArrayString<48>, n: u8)
    requires { length text.old.bytes ≤ 44 }
    ensures appended { text.new.bytes ≡ text.old.bytes ++ number_line n }
    ensures short { length text.new.bytes ≤ length text.old.bytes + 4 }
{
    push_decimal(text, n);
    text.push('\n');
}

// The line of all core coordinates, a space between two.
fn push_cores_line(text: &mut ArrayString<48>, version: usize)
    requires { (length text.old.bytes ≤ 8) × (1 ≤ version) × (version ≤ 32) }
    ensures appended { text.new.bytes ≡ text.old.bytes ++ cores_line (cores_of version) }
    ensures short { length text.new.bytes ≤ length text.old.bytes + 36 }
{
    let row = tables::core_row(version);
    if let [first, others @ ..] = row.cores() {
        push_decimal(text, *first);
        for core in others {
            text.push(' ');
            push_decimal(text, *core);
        }
    }
    text.push('\n');
}

// Stores a text as far as the buffer reaches, and answers its length.
fn put_text(out: &mut [u8], text: &[u8]) -> usize
    ensures value { result ≡ length text.now }
    ensures out_after { out.new ≡ sets out.old 0 text.now }
{
    pieces::put_all(out, 0, text)
}

// The three lines of a side-version, or the refusal, and their length. 48 bytes hold any of them; a
// shorter buffer holds the front.
#[tactic(auto, unfolding(crate::specs::Listing::side_text, crate::specs::Listing::refused_line))]
pub fn side_text(version: usize, out: &mut [u8]) -> usize
    ensures value { (result ≡ length (side_text version)) × (result ≤ 48) }
    ensures out_after { out.new ≡ sets out.old 0 (side_text version) }
{
    let mut text = ArrayString::<48>::new();
    if (1..=32).contains(&version) {
        push_number_line(&mut text, tables::side_size(version as u32) as u8);
        push_cores_line(&mut text, version);
        push_number_line(&mut text, tables::inner_patterns(version, version) as u8);
    } else {
        text.push_str(REFUSED);
    }
    put_text(out, text.as_str().as_bytes())
}

// The same for a number, where there is one; what is no number is refused.
#[tactic(auto, unfolding(crate::specs::Listing::number_text, crate::specs::Listing::refused_line))]
pub fn number_text(number: Option<usize>, out: &mut [u8]) -> usize
    ensures value { (result ≡ length (number_text number)) × (result ≤ 48) }
    ensures out_after { out.new ≡ sets out.old 0 (number_text number) }
{
    match number {
        Some(version) => side_text(version, out),
        None => put_text(out, REFUSED.as_bytes()),
    }
}

// What the side lister prints for an input, whatever it is, and its length.
#[tactic(auto, using(crate::proofs::Listing::scan_listing))]
pub fn list_side(input: &[u8], out: &mut [u8]) -> usize
    ensures value { (result ≡ length (listing input.now)) × (result ≤ 48) }
    ensures out_after { out.new ≡ sets out.old 0 (listing input.now) }
{
    number_text(number_of(scan(Numeral::Start, input)), out)
}
