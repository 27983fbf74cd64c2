// The clock: microseconds modulo 4,294,967,296.
#![tactic(auto)]

ghost use Rattle.std.specs.Prelude.{◌≡◌, ◌+◌, ◌%◌};

#[derive(Drop)]
pub struct Clock {
    pub us: u32,
}

impl Clock {
    // The clock at a number of microseconds.
    pub fn at(us: u32) -> Clock
        ensures { result.us ≡ us }
    {
        Clock { us }
    }

    // The clock moved on, handed back.
    pub fn advance(mut self, us: u32) -> Clock
        ensures { result.us ≡ (self.us + us) % 0x1_0000_0000 }
    {
        self.us = ((self.us as u64 + us as u64) % 0x1_0000_0000) as u32;
        self
    }
}
