//! The text word: one to seven bytes of text and their width in 64 bits. docs/ROWS.md lays the bits down.
ghost use Rattle.std.specs.Prelude.{◌≡◌, ◌≤◌, false, length, None};
ghost use Rattle.std.specs.List.{slice_get};
ghost use Rattle.cells.specs.Cleaning.{unclean, clean, space};
ghost use Rattle.cells.specs.Refusals.{first_of, verdict, mapped};
ghost use Rattle.cells.specs.Words.{value, word_of, text_of, width_of, has_zero, bad_width, word_refusals, made, spelled, same_bytes, Bits};

use crate::cleaning::cleaned;
use crate::refusal::Refusal;

const TOP: u64 = 0x8000_0000_0000_0000;

const WIDE: u64 = 0x4000_0000_0000_0000;

const TEXT: u64 = 0x00ff_ffff_ffff_ffff;

#[derive(Clone, Copy, PartialEq, Eq)]
pub struct TeenyString {
    word: u64,
    ghost laid: { word_of (text_of word) (width_of word) ≡ word },
    ghost clean: { unclean (text_of word) ≡ false },
    ghost narrow: { bad_width (text_of word) (width_of word) ≡ false },
}

// A loop of its own: the library's `contains` is made for long texts, and makes the word of a short one dear.
/// Whether a byte of the text is zero.
fn has_zero(text: &[u8]) -> bool
    ensures { result ≡ has_zero text.now }
{
    for b in text {
        if *b == 0 {
            return true;
        }
    }
    false
}

fn is_bad_width(text: &[u8], width: usize) -> bool
    ensures { result ≡ bad_width text.now width }
{
    match (text, width) {
        (_, 1) => false,
        ([0x20], 2) => true,
        (_, 2) => false,
        _ => true,
    }
}

/// What refuses a clean text and its width, if anything does.
fn check_word(text: &[u8], width: usize) -> Result<(), Refusal>
    ensures { result ≡ verdict (first_of (word_refusals text.now width)) tt }
{
    if has_zero(text) {
        return Err(Refusal::NotOnePiece);
    }
    if text.len() > 7 {
        return Err(Refusal::TooLong);
    }
    if is_bad_width(text, width) {
        return Err(Refusal::BadWidth);
    }
    Ok(())
}

/// The bytes as a number, the first lowest.
fn packed(text: &[u8]) -> u64
    requires { length text.now ≤ 7 }
    ensures { result ≡ value text.now }
{
    let mut word: u64 = 0;
    for b in text.iter().rev() {
        word = (word << 8) | u64::from(*b);
    }
    word
}

/// The word of a clean text that nothing refuses.
fn pack(text: &[u8], width: usize) -> TeenyString
    requires { (unclean text.now ≡ false) × (first_of (word_refusals text.now width) ≡ None) }
    ensures { spelled result.word ≡ record { text = text.now; width = width } }
{
    let mut word = TOP | packed(text);
    if width == 2 {
        word |= WIDE;
    }
    TeenyString { word }
}

impl TeenyString {
    // The width is a number: callers may give any, and 4 is for the wrong ones.
    /// The word of a text, cleaned first, and a width.
    pub fn new(text: &[u8], width: usize) -> Result<TeenyString, Refusal>
        ensures { mapped (λ s. spelled s.word) result ≡ made (clean text.now) width }
    {
        let text = cleaned(text);
        check_word(text, width)?;
        Ok(pack(text, width))
    }

    #[tactic(auto, unfolding(crate::specs::Words::text_of))]
    pub fn space() -> TeenyString
        ensures { (spelled result.word ≡ record { text = space; width = 1 }) × (result.word ≡ 0x8000000000000020) }
    {
        TeenyString {
            word: 0x8000_0000_0000_0020,
        }
    }

    /// The word itself.
    pub fn word(&self) -> u64
        ensures value { result ≡ word_of (text_of self.now.word) (width_of self.now.word) }
        ensures bits { Bits result (spelled self.now.word) }
    {
        let TeenyString { word, .. } = self;
        *word
    }

    /// How many bytes the text has.
    #[tactic(auto, using(crate::proofs::Laid::length_of, crate::proofs::Refused::nonempty))]
    pub fn len(&self) -> usize
        ensures { result ≡ length (text_of self.now.word) }
    {
        8 - (self.word & TEXT).leading_zeros() as usize / 8
    }

    /// The i-th byte of the text, from 0.
    pub fn byte(&self, i: usize) -> Option<u8>
        ensures { result ≡ slice_get (text_of self.now.word) i }
    {
        self.read(&mut [0; 7]).get(i).copied()
    }

    /// The text, read into a buffer with room for any.
    #[tactic(auto, using(crate::proofs::Laid::text_length))]
    pub fn read<'b>(&self, buffer: &'b mut [u8; 7]) -> &'b [u8]
        ensures { result.now ≡ text_of self.now.word }
    {
        buffer.copy_from_slice(&self.word.to_le_bytes()[..7]);
        &buffer[..self.len()]
    }

    #[tactic(auto, using(crate::proofs::Laid::wide_bit))]
    pub fn width(&self) -> usize
        ensures { result ≡ width_of self.now.word }
    {
        if self.word & WIDE != 0 { 2 } else { 1 }
    }

    // Not `==`, which counts the width too.
    /// Whether the texts agree; the width does not count.
    #[tactic(auto, using(crate::proofs::Laid::same_texts))]
    pub fn same_text(&self, other: &TeenyString) -> bool
        ensures { result ≡ same_bytes (text_of self.now.word) (text_of other.now.word) }
    {
        self.word & TEXT == other.word & TEXT
    }
}
