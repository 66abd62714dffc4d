//! The lines of a text: each ends at a line feed, the last also at the end of the text.
ghost use Rattle.std.specs.Prelude.{◌≡◌, ◌==◌};
ghost use Rattle.std.specs.List.{position, before_first, after_first};
ghost use Rattle.std.specs.Iterator.{YieldsFirstRef, item_count};
ghost use Rattle.gauge.specs.Lines.{lines_of};

#[derive(Drop)]
pub struct Lines<'a> {
    rest: &'a [u8],
}

/// Where the first line feed stands, if there is one.
fn line_end(text: &[u8]) -> Option<usize>
    ensures { result ≡ position (λ b. b == 0x0a) text.now }
{
    text.iter().position(|b| *b == b'\n')
}

/// What stands before the first line feed and what behind it; all and nothing where there is none.
fn split_line(text: &[u8]) -> (&[u8], &[u8])
    ensures line { result.0.now ≡ before_first (λ b. b == 0x0a) text.now }
    ensures rest { result.1.now ≡ after_first (λ b. b == 0x0a) text.now }
{
    line_end(text).map_or((text, &[]), |n| (&text[..n], &text[n + 1..]))
}

impl<'a> Lines<'a> {
    pub fn new(text: &'a [u8]) -> Lines<'a>
        ensures { result.rest.now ≡ text.now }
    {
        Lines { rest: text }
    }
}

impl<'a> Iterator for Lines<'a> {
    type Item = &'a [u8];

    // What is left then is what stands behind the first line feed.
    ghost next_gives = { λ s line t. YieldsFirstRef (λ s. lines_of s.rest.now) s line t × (t.rest.now ≡ after_first (λ b. b == 0x0a) s.rest.now) };

    ghost remaining = { item_count (λ s. lines_of s.rest.now) };

    /// The next line without its line feed, or none at the end.
    #[tactic(auto, using(crate::proofs::Splitting::lines_more))]
    fn next(&mut self) -> Option<&'a [u8]> {
        if self.rest.is_empty() {
            return None;
        }
        let (line, rest) = split_line(self.rest);
        self.rest = rest;
        Some(line)
    }
}
