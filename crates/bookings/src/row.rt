ghost use Rattle.std.specs.Prelude.{◌≡◌};
ghost use Rattle.bookings.specs.States.{state_number, state_of};

use crate::booking::Booking;

// Stays: lent memory has rows where no booking stands, and files number the states, so blank is one of them and no `None`.
// What a row's booking has come to; a row that holds none is blank. Files know each state by its number.
#[derive(Clone, Copy, PartialEq, Eq, Debug)]
pub enum State {
    Blank = 0,
    Confirmed = 1,
    UnderWay = 2,
    Held = 3,
}

// A number that is no state's.
#[derive(Clone, Copy, PartialEq, Eq, Debug)]
pub struct UnknownState(pub u32);

impl From<State> for u32 {
    ghost from_gives = { λ state n. n ≡ state_number state };

    fn from(value: State) -> u32 {
        value as u32
    }
}

impl TryFrom<u32> for State {
    type Error = UnknownState;

    ghost try_from_gives = { λ n state. state ≡ state_of n };

    fn try_from(value: u32) -> Result<State, UnknownState> {
        match value {
            0 => Ok(State::Blank),
            1 => Ok(State::Confirmed),
            2 => Ok(State::UnderWay),
            3 => Ok(State::Held),
            _ => Err(UnknownState(value)),
        }
    }
}

// A row of the board: a booking under its number.
#[derive(Clone, Copy, PartialEq, Eq, Debug)]
pub struct Row<L> {
    pub number: u32,
    pub booking: Booking<L>,
    pub state: State,
}
