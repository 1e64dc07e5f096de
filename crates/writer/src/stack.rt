// The values that are begun and wait, the last one on top: three entries each, on lent memory from its end down.
ghost use Rattle.std.specs.Prelude.{◌≡◌, [], ◌∷◌, ◌+◌, ◌≤◌, ◌<◌, length, MatchOption};
ghost use Rattle.scan.specs.Stores.{puts};
ghost use Rattle.writer.specs.Frames.{frames};

// What is left of a value: its next token, the token past it, and the rank of the variable whose value it is.
#[derive(Clone, Copy)]
pub struct Frame {
    pub next: usize,
    pub end: usize,
    pub owner: usize,
}

#[derive(Drop)]
pub struct Stack<'a> {
    pub entries: &'a mut [u32],
    pub top: usize,
}

impl<'a> Stack<'a> {
    // A frame goes on top.
    pub fn push(&mut self, frame: Frame)
        requires { (3 ≤ self.old.top) × (self.old.top ≤ length self.old.entries.now) × (frame.next ≤ 65536) × (frame.end ≤ 65536) × (frame.owner ≤ 65536) }
        ensures same { self.new.entries.ghost_name ≡ self.old.entries.ghost_name }
        ensures long { length self.new.entries.now ≡ length self.old.entries.now }
        ensures top { self.new.top + 3 ≡ self.old.top }
        ensures stored { self.new.entries.now ≡ puts self.old.entries.now self.new.top (frame.next ∷ frame.end ∷ frame.owner ∷ []) }
        ensures pushed { frames self.new ≡ frame.next ∷ frame.end ∷ frame.owner ∷ frames self.old }
    {
        let top = self.top - 3;
        self.entries[top] = frame.next as u32;
        self.entries[top + 1] = frame.end as u32;
        self.entries[top + 2] = frame.owner as u32;
        self.top = top;
    }

    // The frame on top, which goes; none where there is none.
    pub fn pop(&mut self) -> Option<Frame>
        requires { self.old.top ≤ length self.old.entries.now }
        ensures same { self.new.entries.ghost_name ≡ self.old.entries.ghost_name }
        ensures entries { self.new.entries.now ≡ self.old.entries.now }
        ensures within { self.new.top ≤ length self.new.entries.now }
        ensures popped { MatchOption result ((self.new.top ≡ self.old.top) × (length (frames self.old) < 3))
            (λ f. (self.new.top ≡ self.old.top + 3) × (frames self.old ≡ f.next ∷ f.end ∷ f.owner ∷ frames self.new)) }
    {
        let top = self.top;
        if self.entries.len() - top < 3 {
            return None;
        }
        let frame = Frame {
            next: self.entries[top] as usize,
            end: self.entries[top + 1] as usize,
            owner: self.entries[top + 2] as usize,
        };
        self.top = top + 3;
        Some(frame)
    }
}
