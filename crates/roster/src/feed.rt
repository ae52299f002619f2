ghost use Rattle.std.specs.Prelude.{Some};
ghost use Rattle.roster.specs.Words.{feed_text};

use std::fmt;

/// A feed: the most ticks that one of its cards takes, and the fewest ticks between two of its releases.
#[derive(Clone, Copy, Default)]
pub struct Feed {
    pub cost: u32,
    pub spacing: u32,
}

impl fmt::Display for Feed {
    ghost output = { λ feed. Some (feed_text feed) };

    fn fmt<W: fmt::Write>(&self, f: &mut fmt::Formatter<W>) -> fmt::Result {
        let cost = self.cost;
        let spacing = self.spacing;
        write!(f, "cost {cost} every {spacing}")
    }
}
