ghost use Rattle.std.specs.Prelude.{◌≡◌, ℕ, ◌+◌, ◌^◌, ◌<◌, List, [], ◌++◌, length};
ghost use Rattle.text_places.specs.Place.{place_behind};

/// A position in a text. A line ends only at a line feed: a carriage return is a byte of its line.
#[derive(Clone, Copy, Debug, PartialEq, Eq)]
pub struct Place {
    /// The line, from 1.
    pub line: u64,
    /// The column in bytes, from 1.
    pub column: u64,
}

impl Place {
    /// Where a text begins.
    #[tactic(auto, unfolding(crate::specs::Place::place_behind))]
    pub fn start() -> Place
        ensures { result ≡ place_behind [] }
    {
        Place { line: 1, column: 1 }
    }

    /// The position after some bytes, which begin at this position.
    pub fn behind(self, bytes: &[u8]) -> Place
        requires line { self.line + length bytes.now < 2 ^ 64 }
        requires column { self.column + length bytes.now < 2 ^ 64 }
        ensures { (before : List ℕ) → self ≡ place_behind before → result ≡ place_behind (before ++ bytes.now) }
    {
        let mut line = self.line;
        let mut column = self.column;
        for byte in bytes {
            if *byte == b'\n' {
                line += 1;
                column = 1;
            } else {
                column += 1;
            }
        }
        Place { line, column }
    }
}
