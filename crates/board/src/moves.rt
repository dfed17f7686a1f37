// What is done to a booking by its number or its token: confirm, release, cancel, begin, finish.
ghost use Rattle.std.specs.Prelude.{◌≡◌, Some, ◌≢◌};
ghost use Rattle.bookings.specs.Rows.{numbered};
ghost use Rattle.bookings.specs.Table.{fate};
ghost use Rattle.bookings.specs.declared.row.Row.{Row};
ghost use Rattle.board.specs.Calls.{move, answer, after, no_row, wrong_state, with_state, without_row, fate_after};
ghost use Rattle.board.specs.Places.{Placed};
ghost use Rattle.board.specs.Results.{done_result, handed, token_result, done_by};
ghost use Rattle.board.specs.Views.{holding, SameMemory};

use crate::board::Board;
use crate::changes::Lift;
use crate::rows::place_of;
use crate::token::HoldToken;
use bookings::event::Event;
use bookings::refusal::Refusal;
use bookings::row::{Row, State};
use slots::span::Span;
use units::kind::Units;

// Stays: this and the next are two lists of the rules, each by its own name; one of both would hide which is meant.
// The refusal where there is no row of that number.
fn no_row(event: Event) -> Refusal
    ensures { result ≡ no_row event }
{
    match event {
        Event::Confirm | Event::Release => Refusal::NotHeld,
        Event::Cancel | Event::Begin | Event::Finish => Refusal::NoSuchBooking,
    }
}

// The refusal where the row's state bars the event.
fn wrong_state(event: Event) -> Refusal
    ensures { result ≡ wrong_state event }
{
    match event {
        Event::Confirm | Event::Release => Refusal::NotHeld,
        Event::Cancel | Event::Begin | Event::Finish => Refusal::WrongState,
    }
}

// Spends the token where its booking was moved, and hands it back where that was refused.
fn spend(token: HoldToken, moved: Result<(), Refusal>) -> Result<(), HoldToken>
    ensures { result ≡ handed token moved }
{
    let mut token = token;
    match moved {
        Ok(()) => {
            token.spent = true;
            Ok(())
        }
        Err(_) => Err(token),
    }
}

impl<'m, L: Units> Board<'m, L> {
    // Puts the booking at `place` into another state.
    fn set_state(&mut self, number: u32, place: usize, state: State)
        requires { (Placed number (holding self.old).book.rows (Some place)) × ((state ≢ State.Blank)) }
        ensures board { (r : Row L) → numbered number (holding self.old).book.rows ≡ Some r → holding self.new ≡ with_state (holding self.old) number r state }
        ensures memory { SameMemory self.old self.new }
    {
        let row = self.rows.items()[place];
        self.rows.replace(place, Row { state, ..row });
    }

    // Takes the booking at `place` out, and lifts its claim from the slots of its span.
    fn remove(&mut self, number: u32, place: usize)
        requires { Placed number (holding self.old).book.rows (Some place) }
        ensures board { (r : Row L) → numbered number (holding self.old).book.rows ≡ Some r → holding self.new ≡ without_row L.kind (holding self.old) number r }
        ensures memory { SameMemory self.old self.new }
    {
        let row = self.rows.items()[place];
        let lift = Lift {
            claim: row.booking.claim,
        };
        let _ = self.rows.remove(place);
        let span = Span {
            from: row.booking.start,
            until: row.booking.end,
        };
        let _ = self.slots.change(span, &lift);
    }

    // The row's state and the event together decide: the row changes, or is removed, or the state bars the event.
    fn act(&mut self, number: u32, place: usize, event: Event) -> Result<(), Refusal>
        requires { Placed number (holding self.old).book.rows (Some place) }
        ensures answer { (r : Row L) → numbered number (holding self.old).book.rows ≡ Some r → result ≡ done_by event (fate event r.state) }
        ensures board { (r : Row L) → numbered number (holding self.old).book.rows ≡ Some r → holding self.new ≡ fate_after L.kind (holding self.old) number r (fate event r.state) }
        ensures memory { SameMemory self.old self.new }
    {
        match (self.rows.items()[place].state, event) {
            (State::Held, Event::Confirm) => {
                self.set_state(number, place, State::Confirmed);
            }
            (State::Confirmed, Event::Begin) => {
                self.set_state(number, place, State::UnderWay);
            }
            (State::Held, Event::Release)
            | (State::Confirmed, Event::Cancel)
            | (State::UnderWay, Event::Finish) => {
                self.remove(number, place);
            }
            _ => return Err(wrong_state(event)),
        }
        Ok(())
    }

    // The event for the booking of that number.
    fn moved(&mut self, number: u32, event: Event) -> Result<(), Refusal>
        ensures answer { result ≡ done_result (answer L.kind (holding self.old) (move event number)) }
        ensures board { holding self.new ≡ after L.kind (holding self.old) (move event number) }
        ensures memory { SameMemory self.old self.new }
    {
        match place_of(self.rows.items(), number) {
            Some(place) => self.act(number, place, event),
            None => Err(no_row(event)),
        }
    }

    // Stays: the five calls have their names and promises, by the rules; `moved` is the one function under them.
    // The held booking of the token is confirmed; a token whose booking is not held here is handed back.
    pub fn confirm(&mut self, token: HoldToken) -> Result<(), HoldToken>
        ensures answer { result ≡ token_result token (answer L.kind (holding self.old) (move Event.Confirm token.number)) }
        ensures board { holding self.new ≡ after L.kind (holding self.old) (move Event.Confirm token.number) }
        ensures memory { SameMemory self.old self.new }
    {
        let moved = self.moved(token.number, Event::Confirm);
        spend(token, moved)
    }

    // The held booking of the token is removed; a token whose booking is not held here is handed back.
    pub fn release(&mut self, token: HoldToken) -> Result<(), HoldToken>
        ensures answer { result ≡ token_result token (answer L.kind (holding self.old) (move Event.Release token.number)) }
        ensures board { holding self.new ≡ after L.kind (holding self.old) (move Event.Release token.number) }
        ensures memory { SameMemory self.old self.new }
    {
        let moved = self.moved(token.number, Event::Release);
        spend(token, moved)
    }

    // The confirmed booking of that number is removed.
    pub fn cancel(&mut self, number: u32) -> Result<(), Refusal>
        ensures answer { result ≡ done_result (answer L.kind (holding self.old) (move Event.Cancel number)) }
        ensures board { holding self.new ≡ after L.kind (holding self.old) (move Event.Cancel number) }
        ensures memory { SameMemory self.old self.new }
    {
        self.moved(number, Event::Cancel)
    }

    // The confirmed booking of that number is then under way.
    pub fn begin(&mut self, number: u32) -> Result<(), Refusal>
        ensures answer { result ≡ done_result (answer L.kind (holding self.old) (move Event.Begin number)) }
        ensures board { holding self.new ≡ after L.kind (holding self.old) (move Event.Begin number) }
        ensures memory { SameMemory self.old self.new }
    {
        self.moved(number, Event::Begin)
    }

    // The booking of that number, which is under way, is removed.
    pub fn finish(&mut self, number: u32) -> Result<(), Refusal>
        ensures answer { result ≡ done_result (answer L.kind (holding self.old) (move Event.Finish number)) }
        ensures board { holding self.new ≡ after L.kind (holding self.old) (move Event.Finish number) }
        ensures memory { SameMemory self.old self.new }
    {
        self.moved(number, Event::Finish)
    }
}
