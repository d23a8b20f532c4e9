//! Places in a text, and in one of its lines.
ghost use Rattle.std.specs.Prelude.{◌≡◌, ◌≤◌, ◌+◌, length};
ghost use Rattle.knox_text.specs.Tokens.{place_of};

/// Where a byte of a text stands. A line ends behind its line feed, and a column counts bytes.
#[derive(Clone, Copy, Debug, PartialEq, Eq)]
pub struct Place {
    /// From 1.
    pub line: u32,
    /// From 1.
    pub column: u32,
}

/// A line of a text.
#[derive(Clone, Copy)]
pub struct Line {
    /// From 1.
    pub number: u32,
    /// How many bytes it has, without those that end it.
    pub width: usize,
}

impl Line {
    /// The place of the token that begins with so many bytes of the line left, or with 0 that of the
    /// line's end.
    pub fn place(self, left: usize) -> Place
        requires { self.width ≤ 67108864 }
        ensures { result ≡ place_of self.number self.width left }
    {
        Place {
            line: self.number,
            column: (1 + self.width).saturating_sub(left) as u32,
        }
    }
}
