// Stays: the flag is what the drop of a token that was let go would have to show; so the prover refuses it, by a rule of the project.
// The token of a hold: it must be confirmed or released before it goes out of use.
ghost use Rattle.std.specs.Prelude.{◌≡◌, true};

pub struct HoldToken {
    pub(crate) number: u32,
    pub(crate) spent: bool,
}

impl Drop for HoldToken {
    fn drop(self)
        requires { self.spent ≡ true }
    {
        let HoldToken {
            number: _,
            spent: _,
        } = self;
    }
}

impl HoldToken {
    // The number of the booking that it stands for.
    pub fn number(&self) -> u32
        ensures { result ≡ self.now.number }
    {
        self.number
    }
}
