//! The code points of a text, one after the other, and how many bytes each takes.
ghost use Rattle.std.specs.Prelude.{◌&&◌, ◌≡◌, ◌+◌, ◌-◌, ◌*◌, ◌<◌, ◌≤◌, true, length, IfSome};
ghost use Rattle.utf8_text.specs.Reading.{tail, begins_2, begins_3, begins_4, first_point, points};
ghost use Rattle.std.specs.Iterator.{YieldsFirst, item_count};

// The characters of each length have a test of their own, as they have a line of their own in the standard's grammar.

/// Whether two bytes are a character.
fn are_two(a: u8, b: u8) -> bool
    ensures { result ≡ begins_2 a b }
{
    matches!((a, b), (0xc2..=0xdf, 0x80..=0xbf))
}

/// Whether three bytes are a character: no longer form than needed, and no surrogate.
fn are_three(a: u8, b: u8, c: u8) -> bool
    ensures { result ≡ (begins_3 a b && tail c) }
{
    matches!(
        (a, b, c),
        (0xe0, 0xa0..=0xbf, 0x80..=0xbf)
            | (0xe1..=0xec, 0x80..=0xbf, 0x80..=0xbf)
            | (0xed, 0x80..=0x9f, 0x80..=0xbf)
            | (0xee..=0xef, 0x80..=0xbf, 0x80..=0xbf)
    )
}

/// Whether four bytes are a character: no longer form than needed, and nothing above U+10FFFF.
#[inline(always)]
fn are_four(a: u8, b: u8, c: u8, d: u8) -> bool
    ensures { result ≡ (begins_4 a b && (tail c && tail d)) }
{
    matches!(
        (a, b, c, d),
        (0xf0, 0x90..=0xbf, 0x80..=0xbf, 0x80..=0xbf)
            | (0xf1..=0xf3, 0x80..=0xbf, 0x80..=0xbf, 0x80..=0xbf)
            | (0xf4, 0x80..=0x8f, 0x80..=0xbf, 0x80..=0xbf)
    )
}

/// What the front of a character holds, with the six bits of the tail behind it.
fn with_tail(front: u32, b: u8) -> u32
    requires front { front < 0x8000 }
    requires tail { tail b ≡ true }
    ensures { result ≡ front * 0x40 + (b - 0x80) }
{
    front * 0x40 + u32::from(b - 0x80)
}

/// The code point that a text begins with and how many bytes it takes, or none where it begins with no character.
// Inlined, as `are_four` and `next` are, so that no pair goes through memory.
#[inline(always)]
fn first_point(text: &[u8]) -> Option<(u32, usize)>
    ensures value { result ≡ first_point text.now }
    ensures within { IfSome result (λ p. p.1 ≤ length text.now) }
{
    match *text {
        [a, ..] if a <= 0x7f => Some((u32::from(a), 1)),
        [a, b, ..] if are_two(a, b) => Some((with_tail(u32::from(a - 0xc0), b), 2)),
        [a, b, c, ..] if are_three(a, b, c) => {
            let two = with_tail(u32::from(a - 0xe0), b);
            Some((with_tail(two, c), 3))
        }
        [a, b, c, d, ..] if are_four(a, b, c, d) => {
            let two = with_tail(u32::from(a - 0xf0), b);
            Some((with_tail(with_tail(two, c), d), 4))
        }
        _ => None,
    }
}

/// The code points of a text, up to where no character begins.
#[derive(Drop)]
pub(crate) struct Points<'a>(pub(crate) &'a [u8]);

impl Iterator for Points<'_> {
    type Item = u32;

    ghost next_gives = { YieldsFirst (λ s. points s.0.now) };

    ghost remaining = { item_count (λ s. points s.0.now) };

    #[inline(always)]
    fn next(&mut self) -> Option<u32> {
        let (c, n) = first_point(self.0)?;
        self.0 = &self.0[n..];
        Some(c)
    }
}
