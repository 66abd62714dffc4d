//! Steps on texts: two texts joined, and where the last piece begins.
ghost use Rattle.std.specs.Prelude.{◌≡◌, ◌+◌, ◌≤◌, ◌++◌, length, take, drop};
ghost use Rattle.splitters.specs.Pieces.{pieces};
ghost use Rattle.runs.specs.Dressing.{last_piece};

use splitters::ends::piece_end;
use splitters::splitter::Splitter;

/// Two texts joined, in a buffer with room for any two of cells.
#[tactic(auto, using(std::proofs::lemmas::Slice::overwrites))]
pub(crate) fn joined<'b>(both: &'b mut [u8; 14], a: &[u8], b: &[u8]) -> &'b [u8]
    requires { (length a.now ≤ 7) × (length b.now ≤ 7) }
    ensures { result.now ≡ a.now ++ b.now }
{
    let end = a.len() + b.len();
    both[..a.len()].copy_from_slice(a);
    both[a.len()..end].copy_from_slice(b);
    &both[..end]
}

/// Where the last piece of a text begins: found from the front, since where a piece begins shows only there.
pub(crate) fn last_start<P: Splitter>(text: &[u8]) -> usize
    ensures piece { drop result text.now ≡ last_piece (pieces P.Splitter.splits.first text.now) }
    ensures bound { result ≤ length text.now }
{
    // By hand, from end to end: a chain of ends is no shorter, and a reader of pieces tests the text and each piece besides.
    let mut at = 0;
    while at < text.len() {
        let end = piece_end::<P>(text, at);
        if end >= text.len() {
            return at;
        }
        at = end;
    }
    at
}
