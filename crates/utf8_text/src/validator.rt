//! Whether a text is UTF-8, byte by byte from state to state.
ghost use Rattle.std.specs.Prelude.{◌≡◌};
ghost use Rattle.utf8_text.specs.Reading.{good};
ghost use Rattle.utf8_text.specs.Meaning.{Meaning};

use crate::state::State;

/// Whether a text is UTF-8: exactly if the grammar of RFC 3629 derives it.
#[tactic(auto, using(crate::proofs::Steps::passed, crate::proofs::Steps::end_of, crate::proofs::Steps::stuck, crate::proofs::Encoded::meant))]
pub fn is_utf8(text: &[u8]) -> bool
    ensures value { result ≡ good text.now }
    ensures meaning { Meaning text.now }
{
    let mut state = State::Start;
    for &b in text {
        state = match (state, b) {
            (State::Start, 0x00..=0x7f) => State::Start,
            (State::Start, 0xc2..=0xdf) => State::Tail1,
            (State::Start, 0xe0) => State::AfterE0,
            (State::Start, 0xe1..=0xec | 0xee..=0xef) => State::Tail2,
            (State::Start, 0xed) => State::AfterEd,
            (State::Start, 0xf0) => State::AfterF0,
            (State::Start, 0xf1..=0xf3) => State::Tail3,
            (State::Start, 0xf4) => State::AfterF4,
            (State::Tail1, 0x80..=0xbf) => State::Start,
            (State::Tail2, 0x80..=0xbf) => State::Tail1,
            (State::Tail3, 0x80..=0xbf) => State::Tail2,
            (State::AfterE0, 0xa0..=0xbf) => State::Tail1,
            (State::AfterEd, 0x80..=0x9f) => State::Tail1,
            (State::AfterF0, 0x90..=0xbf) => State::Tail2,
            (State::AfterF4, 0x80..=0x8f) => State::Tail2,
            _ => return false,
        };
    }
    state == State::Start
}
