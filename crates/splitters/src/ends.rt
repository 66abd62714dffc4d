//! Where a piece ends.
ghost use Rattle.std.specs.Prelude.{◌≡◌, ◌+◌, ◌-◌, ◌<◌, ◌≤◌, min, max, ◌∷◌, length, take, drop};
ghost use Rattle.splitters.specs.Pieces.{pieces};

use crate::splitter::Splitter;

/// Where the piece that begins at a place ends: behind one byte at least, and nowhere behind the text.
pub fn piece_end<P: Splitter>(text: &[u8], at: usize) -> usize
    ensures end { result ≡ min (length text.now) (at + max 1 (P.Splitter.splits.first (drop at text.now))) }
    ensures bound { at < length text.now → (at < result) × (result ≤ length text.now) }
    ensures pieces { at < length text.now
        → pieces P.Splitter.splits.first (drop at text.now)
        ≡ take (result - at) (drop at text.now) ∷ pieces P.Splitter.splits.first (drop result text.now) }
{
    if at >= text.len() {
        return text.len();
    }
    at + P::first_len(&text[at..]).clamp(1, text.len() - at)
}
