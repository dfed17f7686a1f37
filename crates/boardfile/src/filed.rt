// The kinds of unit whose boards have files.
ghost use Rattle.std.specs.Prelude.{◌≡◌};
ghost use Rattle.boardfile.specs.Filings.{Filing, Faithful, crew_filing, stock_filing};
ghost use borrow.Author.Rules.{rules};
ghost use Rattle.units.specs.Sets.{without};

use units::crew::Crew;
use units::kind::Units;
use units::stock::Stock;

// A kind whose claims can be written as numbers of 64 bits.
pub trait Filed: Units {
    ghost filing: { Filing Self };

    // The kind's number in a file.
    // Stays: other firms may file kinds of their own, so no enum names them all; and a constant would need a ghost number and a law beside `filing` to say what one clause says here.
    fn code() -> u32
        ensures { result ≡ filing.code };

    // This claim as a number.
    // Stays: by `From` and `Into`, this and `of_word` would need a law each that ties them to `filing`.
    fn word(self) -> u64
        ensures { result ≡ filing.word self };

    // The claim that a number stands for.
    fn of_word(word: u64) -> Self
        ensures { result ≡ filing.claim word };

    ghost faithful: { Faithful Self.Units.kind filing };
}

// A crew's claim is its mask.
impl Filed for Crew {
    ghost filing = { crew_filing };

    ghost faithful = { unfold without in Prim.search rules };

    fn code() -> u32 {
        1
    }

    fn word(self) -> u64 {
        self.mask
    }

    fn of_word(word: u64) -> Crew {
        Crew { mask: word }
    }
}

// A stock's claim is its count.
impl Filed for Stock {
    ghost filing = { stock_filing };

    ghost faithful = { Prim.search rules };

    fn code() -> u32 {
        2
    }

    fn word(self) -> u64 {
        self.count
    }

    fn of_word(word: u64) -> Stock {
        Stock { count: word }
    }
}
