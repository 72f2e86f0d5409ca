//! A line's words, cut where they stand.

ghost use Rattle.std.specs.Prelude.{◌≡◌, ◌∷◌, position};
ghost use Rattle.hq_text.specs.Lines.{words_of, is_space};
ghost use Rattle.hq_timeline.specs.LineTests.{is_head, is_last};
ghost use Rattle.hq_timeline.specs.Split.{list_of, words_behind};

/// A line's words. Where they are more than three, the rest of the line behind the third.
#[derive(Clone, Copy)]
pub enum Words<'a> {
    One(&'a [u8]),
    Two(&'a [u8], &'a [u8]),
    Three(&'a [u8], &'a [u8], &'a [u8]),
    More(&'a [u8], &'a [u8], &'a [u8], &'a [u8]),
}

/// Where the first space stands.
fn word_end(line: &[u8]) -> Option<usize>
    ensures { result ≡ position is_space line.now }
{
    line.iter().position(|b| *b == b' ')
}

/// A line's first word, and what stands behind its space, if there is one.
fn first_word(line: &[u8]) -> (&[u8], Option<&[u8]>)
    ensures { words_of line.now ≡ result.0.now ∷ words_behind (λ w. w.now) result.1 }
{
    match word_end(line) {
        Some(at) => (&line[..at], Some(&line[at + 1..])),
        None => (line, None),
    }
}

impl<'a> Words<'a> {
    /// The words of a line.
    pub fn of_line(line: &'a [u8]) -> Words<'a>
        ensures { list_of result ≡ words_of line.now }
    {
        let (first, behind) = first_word(line);
        let Some(behind) = behind else {
            return Words::One(first);
        };
        let (second, behind) = first_word(behind);
        let Some(behind) = behind else {
            return Words::Two(first, second);
        };
        let (third, behind) = first_word(behind);
        match behind {
            None => Words::Three(first, second, third),
            Some(behind) => Words::More(first, second, third, behind),
        }
    }

    /// Whether they are those of the first line.
    #[tactic(auto, unfolding(crate::specs::LineTests::is_head))]
    pub fn is_head(self) -> bool
        ensures { result ≡ is_head (list_of self.entry) }
    {
        match self {
            Words::Two(name, version) => {
                name == b"hsat".as_slice() && version == b"1".as_slice()
            }
            _ => false,
        }
    }

    /// Whether they are those of the last line.
    #[tactic(auto, unfolding(crate::specs::LineTests::is_last))]
    pub fn is_last(self) -> bool
        ensures { result ≡ is_last (list_of self.entry) }
    {
        match self {
            Words::One(name) => name == b"end".as_slice(),
            _ => false,
        }
    }
}
