//! Cleaning: a text that moves or does nothing on a display becomes a space.
ghost use Rattle.std.specs.Prelude.{◌≡◌, Decides, ◌≢◌};
ghost use Rattle.cells.specs.Cleaning.{unclean, clean};

/// Whether cleaning changes the text.
pub fn is_unclean(text: &[u8]) -> bool
    ensures value { result ≡ unclean text.now }
    ensures exact { Decides result (clean text.now ≢ text.now) }
{
    match text {
        [] => true,
        [b] => *b < 0x20 || *b == 0x7f,
        [b, d] => (*b == 0x0d && *d == 0x0a) || (*b == 0xc2 && 0x80 <= *d && *d <= 0x9f),
        _ => false,
    }
}

/// The text, or a space where it is unclean.
pub fn cleaned(text: &[u8]) -> &[u8]
    ensures { result.now ≡ clean text.now }
{
    if is_unclean(text) { b" " } else { text }
}
