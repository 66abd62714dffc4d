//! Controls, marks, and how many bytes a code point takes.
ghost use Rattle.std.specs.Prelude.{◌≡◌};
ghost use Rattle.utf8_text.specs.Pieces.{control, mark, size};

pub(crate) fn is_control(c: u32) -> bool
    ensures { result ≡ control c }
{
    matches!(c, 0x00..=0x1f | 0x7f..=0x9f)
}

pub(crate) fn is_mark(c: u32) -> bool
    ensures { result ≡ mark c }
{
    matches!(c, 0x300..=0x36f | 0x200d | 0xfe00..=0xfe0f)
}

pub(crate) fn size(c: u32) -> usize
    ensures { result ≡ size c }
{
    match c {
        0x00..=0x7f => 1,
        0x80..=0x7ff => 2,
        0x800..=0xffff => 3,
        _ => 4,
    }
}
