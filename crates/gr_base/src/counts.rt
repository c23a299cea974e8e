/// What a desk counts, each up to its last value.
#[derive(Clone, Copy, Debug)]
pub struct Counts {
    /// How often a read was refused.
    pub read_faults: u64,
    /// How often a write was refused.
    pub write_faults: u64,
    /// How many bytes were fetched.
    pub taken: u64,
}

impl Counts {
    ghost use Rattle.std.specs.Prelude.{◌≡◌, ◌≤◌};
    ghost use Rattle.gr_base.specs.Desk.{counted};

    pub fn new() -> Counts
        ensures { result ≡ record { read_faults = 0; write_faults = 0; taken = 0 } }
    {
        Counts {
            read_faults: 0,
            write_faults: 0,
            taken: 0,
        }
    }

    pub fn refuse_read(&mut self)
        ensures counts { self.new ≡ record self.old { read_faults = counted self.old.read_faults 1 } }
        ensures later { self.old.read_faults ≤ self.new.read_faults }
    {
        self.read_faults = self.read_faults.saturating_add(1);
    }

    pub fn refuse_write(&mut self)
        ensures counts { self.new ≡ record self.old { write_faults = counted self.old.write_faults 1 } }
        ensures later { self.old.write_faults ≤ self.new.write_faults }
    {
        self.write_faults = self.write_faults.saturating_add(1);
    }

    pub fn take(&mut self, count: usize)
        ensures { self.new ≡ record self.old { taken = counted self.old.taken count } }
    {
        self.taken = self.taken.saturating_add(count as u64);
    }
}
