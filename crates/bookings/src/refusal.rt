ghost use Rattle.std.specs.Prelude.{◌≡◌};
ghost use Rattle.bookings.specs.Refusals.{number, fault_number};
ghost use Rattle.bookings.specs.declared.refusal.Refusal.TheVariants.{File};

// What is wrong with a board file; rows are counted from 0.
#[derive(Clone, Copy, PartialEq, Eq, Debug)]
pub enum FileFault {
    // Fewer bytes than a header has.
    Short,
    // A field of the header other than the count has a value that is not allowed.
    Header,
    // More or fewer bytes than the count asks for.
    Length,
    // More rows than the board has room for.
    Room,
    // The row breaks a rule for rows.
    Row(usize),
    // At some minute of its span, the row's claim is not clear of the rows above it.
    Clash(usize),
}

// Why a call is refused.
#[derive(Clone, Copy, PartialEq, Eq, Debug)]
pub enum Refusal {
    // Setting up: the capacity is 0 or above the kind's most; the horizon is out of range; no rows, too many, or too few records.
    Capacity,
    Horizon,
    Memory,
    // Holding: no duration; no units wanted, or more than there are; no such window; no row left; no number left; no gap.
    Duration,
    Wanted,
    Window,
    Full,
    NumbersUsedUp,
    NoGap,
    // Moving: the token's booking is not held here; no such booking; its state bars it.
    NotHeld,
    NoSuchBooking,
    WrongState,
    // Loading: a booking stands; the file is at fault.
    BookingStands,
    File(FileFault),
    // Saving: a held booking stands, or the board is closed; the memory is shorter than the file.
    NotSettled,
    Buffer,
    // Reading a sheet: a line of no known form; more bytes than a sheet may have.
    BadLine,
    SheetTooLong,
}

// A file that is at fault is refused for it.
impl From<FileFault> for Refusal {
    ghost from_gives = { λ fault why. why ≡ File fault };

    fn from(value: FileFault) -> Refusal {
        Refusal::File(value)
    }
}

// The number of the refusal that the fault leads to.
impl From<FileFault> for u32 {
    ghost from_gives = { λ fault n. n ≡ fault_number fault };

    fn from(value: FileFault) -> u32 {
        match value {
            FileFault::Short => 14,
            FileFault::Header => 15,
            FileFault::Length => 16,
            FileFault::Room => 17,
            FileFault::Row(_) => 18,
            FileFault::Clash(_) => 19,
        }
    }
}

// The number that the refusal is known by.
impl From<Refusal> for u32 {
    ghost from_gives = { λ why n. n ≡ number why };

    fn from(value: Refusal) -> u32 {
        match value {
            Refusal::Capacity => 1,
            Refusal::Horizon => 2,
            Refusal::Memory => 3,
            Refusal::Duration => 4,
            Refusal::Wanted => 5,
            Refusal::Window => 6,
            Refusal::Full => 7,
            Refusal::NumbersUsedUp => 8,
            Refusal::NoGap => 9,
            Refusal::NotHeld => 10,
            Refusal::NoSuchBooking => 11,
            Refusal::WrongState => 12,
            Refusal::BookingStands => 13,
            Refusal::File(fault) => u32::from(fault),
            Refusal::NotSettled => 20,
            Refusal::Buffer => 21,
            Refusal::BadLine => 22,
            Refusal::SheetTooLong => 23,
        }
    }
}
