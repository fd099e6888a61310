// Numbers in fields of bits, one bit to a byte, the first bit the highest.
#![tactic(auto)]

ghost use Rattle.std.specs.Prelude.{◌+◌, ◌≤◌, ◌≡◌, length, take, drop};
ghost use Rattle.std.proofs.lemmas.List.Edits.{sets};
ghost use Rattle.symbology.specs.Bits.{value, bits};

// The number that the n bits from `at` on write.
pub fn bits_value(bits: &[u8], at: usize, n: usize) -> u32
    requires { (at + n ≤ length bits.now) × (n ≤ 16) }
    ensures { result ≡ value (take n (drop at bits.now)) }
{
    let mut v = 0;
    for bit in &bits[at..at + n] {
        v = 2 * v + u32::from(bit % 2);
    }
    v
}

// Stores the n lowest bits of a number from `at` on, from the last to the first.
pub fn put_bits(out: &mut [u8], at: usize, n: usize, v: usize)
    requires { at + n ≤ length out.old }
    ensures { out.new ≡ sets out.old at (bits n v) }
{
    let mut rest = v;
    for i in (0..n).rev() {
        out[at + i] = (rest % 2) as u8;
        rest /= 2;
    }
}
