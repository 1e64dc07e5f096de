// Where things stand in the workspace while lines are read.
ghost use Rattle.std.specs.Prelude.{◌≡◌, ◌≤◌};
ghost use Rattle.parser.specs.Places.{past};

// The sizes that lay out the workspace: a text of n bytes, of which there are `count` tokens.
#[derive(Clone, Copy)]
pub struct Layout {
    pub n: usize,
    pub count: usize,
    pub ghost small: { n ≤ 65535 },
    pub ghost tokens: { count ≤ n },
}

impl Layout {
    // The first token past the line that ends at `end`.
    #[tactic(auto, unfolding(rules::specs::Bytes::pick))]
    pub fn past_line(self, end: usize) -> usize
        ensures { result ≡ past self.count end }
    {
        if end < self.count { end + 1 } else { end }
    }
}

// A line with a value: its key's token, the value's first, and the token that ends the line.
#[derive(Clone, Copy)]
pub struct Line {
    pub key: usize,
    pub from: usize,
    pub end: usize,
}
