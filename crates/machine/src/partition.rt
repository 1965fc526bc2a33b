// The record of a partition, and what can happen to it.
ghost use Rattle.std.specs.Prelude.{◌≡◌, ◌<◌, Bool};
ghost use Rattle.machine.specs.Answers.{status_number};
ghost use Rattle.machine.specs.Partitions.{fresh, is_ready, is_idle, is_active, is_suspended, is_open, hidden, halted, suspended, resumed, idled, opened, masked, unmasked, acknowledged, signalled, woken, slot_started};

/// The state of a partition.
#[derive(Clone, Copy, Debug, PartialEq, Eq)]
pub enum Status {
    Halted,
    Ready,
    Idle,
    Suspended,
}

impl Status {
    /// Whether it is READY or IDLE.
    pub fn is_active(self) -> bool
        ensures { result ≡ is_active self }
    {
        matches!(self, Status::Ready | Status::Idle)
    }

    pub fn is_idle(self) -> bool
        ensures { result ≡ is_idle self }
    {
        self == Status::Idle
    }

    pub fn is_suspended(self) -> bool
        ensures { result ≡ is_suspended self }
    {
        self == Status::Suspended
    }
}

impl From<Status> for u8 {
    ghost from_gives = { λ status number. number ≡ status_number status };

    fn from(status: Status) -> u8 {
        match status {
            Status::Ready => 1,
            Status::Idle => 2,
            Status::Suspended => 3,
            Status::Halted => 4,
        }
    }
}

/// A partition's state, its pending and mask words, and the set of its open ports by number.
#[derive(Clone, Copy, Debug, PartialEq, Eq)]
pub struct Partition {
    pub status: Status,
    pub pending: u32,
    pub mask: u32,
    pub ports: u32,
}

impl Partition {
    /// A partition as the boot and a reset leave it: READY and cleared.
    pub fn new() -> Partition
        ensures { result ≡ fresh }
    {
        Partition {
            status: Status::Ready,
            pending: 0,
            mask: 0xffff_ffff,
            ports: 0,
        }
    }

    pub fn is_ready(&self) -> bool
        ensures { result ≡ is_ready self.now.status }
    {
        self.status == Status::Ready
    }

    /// HALTED and cleared.
    pub fn halt(&mut self)
        ensures { self.new ≡ halted self.old }
    {
        *self = Partition {
            status: Status::Halted,
            ..Partition::new()
        };
    }

    pub fn suspend(&mut self)
        ensures { self.new ≡ suspended self.old }
    {
        self.status = Status::Suspended;
    }

    pub fn resume(&mut self)
        ensures { self.new ≡ resumed self.old }
    {
        self.status = Status::Ready;
    }

    /// IDLE, unless an unmasked bit is pending.
    pub fn idle(&mut self)
        ensures { self.new ≡ idled self.old }
    {
        if self.is_hidden() {
            self.status = Status::Idle;
        }
    }

    // A port's number is a shift of a word here and in `open`; elsewhere its bound is that of a row, or of the tables'
    // ports.
    /// Whether the port of this number is open.
    pub fn is_open(&self, port: u8) -> bool
        requires { port < 32 }
        ensures { result ≡ is_open port self.now }
    {
        self.ports & (1 << port) != 0
    }

    pub fn open(&mut self, port: u8)
        requires { port < 32 }
        ensures { self.new ≡ opened port self.old }
    {
        self.ports |= 1 << port;
    }

    /// Sets bits in the mask.
    pub fn mask(&mut self, bits: u32)
        ensures { self.new ≡ masked bits self.old }
    {
        self.mask |= bits;
    }

    /// Clears bits in the mask.
    pub fn unmask(&mut self, bits: u32)
        ensures { self.new ≡ unmasked bits self.old }
    {
        self.mask &= !bits;
    }

    /// Clears bits in the pending word.
    pub fn acknowledge(&mut self, bits: u32)
        ensures { self.new ≡ acknowledged bits self.old }
    {
        self.pending &= !bits;
    }

    /// READY and cleared.
    pub fn reset(&mut self)
        ensures { self.new ≡ fresh }
    {
        *self = Partition::new();
    }

    /// Whether the mask hides every pending bit.
    fn is_hidden(&self) -> bool
        ensures { result ≡ hidden self.now }
    {
        self.pending & self.mask == self.pending
    }

    /// Sets bits in the pending word; an idle partition that sees one becomes READY, and a halted one takes none.
    pub fn signal(&mut self, bits: u32)
        ensures { self.new ≡ signalled bits self.old }
    {
        if self.status == Status::Halted {
            return;
        }
        self.pending |= bits;
        self.wake(!self.is_hidden());
    }

    /// What the start of its slot does to a partition: an IDLE one becomes READY.
    pub fn start_slot(&mut self)
        ensures { self.new ≡ slot_started self.old }
    {
        self.wake(true);
    }

    /// An idle partition becomes READY where it is due.
    pub fn wake(&mut self, due: bool)
        ensures { self.new ≡ woken due self.old }
    {
        if due && self.status == Status::Idle {
            self.resume();
        }
    }
}
