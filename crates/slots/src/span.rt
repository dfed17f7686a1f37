ghost use Rattle.std.specs.Prelude.{◌≡◌};
ghost use Rattle.slots.specs.Stepped.{within};

// The minutes from `from` on and before `until`.
#[derive(Clone, Copy, Debug, PartialEq, Eq)]
pub struct Span {
    pub from: u32,
    pub until: u32,
}

impl Span {
    pub fn holds(self, minute: u32) -> bool
        ensures { result ≡ within self.from self.until minute }
    {
        (self.from..self.until).contains(&minute)
    }
}
