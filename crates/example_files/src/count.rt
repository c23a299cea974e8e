ghost use Rattle.std.specs.Prelude.{◌≡◌, ◌↔◌, ◌<◌};
ghost use Rattle.gr_base.specs.Desk.{counted};
ghost use Rattle.example_files.specs.declared.count.Verdict.TheVariants.{Right, Wrong};

/// Whether rows are right.
#[derive(Clone, Copy, Debug, PartialEq, Eq, Drop)]
pub enum Verdict {
    Right,
    Wrong,
}

/// How many rows a file has, and how many of them are wrong.
#[derive(Clone, Copy, Debug, PartialEq, Eq, Drop)]
pub struct Count {
    pub rows: u64,
    pub wrong: u64,
}

impl Count {
    pub fn new() -> Count
        ensures { result ≡ record { rows = 0; wrong = 0 } }
    {
        Count { rows: 0, wrong: 0 }
    }

    /// Counts a row, up to the last number.
    pub fn add(&mut self, verdict: Verdict)
        ensures rows { self.new.rows ≡ counted self.old.rows 1 }
        ensures right { verdict ≡ Right → self.new.wrong ≡ self.old.wrong }
        ensures wrong { verdict ≡ Wrong → self.new.wrong ≡ counted self.old.wrong 1 }
    {
        self.rows = self.rows.saturating_add(1);
        if verdict == Verdict::Wrong {
            self.wrong = self.wrong.saturating_add(1);
        }
    }

    /// A file without rows is wrong.
    pub fn verdict(&self) -> Verdict
        ensures { (result ≡ Right) ↔ ((0 < self.now.rows) × (self.now.wrong ≡ 0)) }
    {
        if self.rows > 0 && self.wrong == 0 {
            Verdict::Right
        } else {
            Verdict::Wrong
        }
    }
}
