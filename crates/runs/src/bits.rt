//! The table of wide bits: a bit for each of 4,096 columns.
ghost use Rattle.std.specs.Prelude.{◌≡◌, ℕ, ◌+◌, ◌<◌, ◌≤◌, false, if◌then◌else◌, nat_eq};
ghost use Rattle.runs.specs.Bits.{bits_of, ones_in};
ghost use Rattle.runs.specs.Dressing.{width_by};

/// The columns that a bit says.
pub(crate) fn width_by(wide: bool) -> usize
    ensures { result ≡ width_by wide }
{
    if wide { 2 } else { 1 }
}

/// A table with no bit set.
pub(crate) fn no_bits() -> [u64; 64]
    ensures bits { (k : ℕ) → bits_of result k ≡ false }
    ensures ones { ones_in result ≡ 0 }
{
    [0; 64]
}

/// Whether the bit of a column is set; there is none past the table.
pub(crate) fn bit(words: &[u64; 64], x: usize) -> bool
    ensures value { result ≡ bits_of words.now x }
    ensures bound { (k : ℕ) → 4096 ≤ k → bits_of words.now k ≡ false }
{
    words.get(x / 64).is_some_and(|w| (w >> (x % 64)) & 1 == 1)
}

/// Sets the bit of a column, or clears it.
#[tactic(auto, using(crate::proofs::Flipping::flipped, crate::proofs::Flipping::counted))]
pub(crate) fn mark(words: &mut [u64; 64], x: usize, on: bool)
    requires { x < 4096 }
    ensures bits { (k : ℕ) → bits_of words.new k ≡ (if nat_eq k x then on else bits_of words.old k) }
    ensures ones { ones_in words.new + (if bits_of words.old x then 1 else 0) ≡ ones_in words.old + (if on then 1 else 0) }
{
    if bit(words, x) == on {
        return;
    }
    words[x / 64] ^= 1 << (x % 64);
}

/// How many bits are set: the columns beyond one for each cell.
pub(crate) fn wide_columns(words: &[u64; 64]) -> usize
    ensures { result ≡ ones_in words.now }
{
    words.iter().map(|w| w.count_ones() as usize).sum()
}
