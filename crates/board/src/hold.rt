// Holding a booking for a request.
ghost use Rattle.std.specs.Prelude.{◌≡◌, ◌+◌, ◌≤◌, None, Ok, nat_lt};
ghost use Rattle.bookings.specs.Grants.{booked};
ghost use Rattle.board.specs.Calls.{hold, hold_check, answer, after, with_booking};
ghost use Rattle.board.specs.Results.{allowed, hold_result, grant_of, Takes};
ghost use Rattle.board.specs.Seeking.{Findable, Sought};
ghost use Rattle.board.specs.Views.{holding, SameMemory};

use crate::board::Board;
use crate::grant::Grant;
use crate::token::HoldToken;
use bookings::booking::Booking;
use bookings::refusal::Refusal;
use bookings::row::{Row, State};
use planning::find::Search;
use planning::found::Found;
use planning::policy::Policy;
use planning::request::Request;
use units::kind::Units;

const LAST_NUMBER: u32 = 99_999;

// Would the request end after its deadline, were it to start as soon as it is ready?
fn ends_late(request: Request) -> bool
    ensures { result ≡ nat_lt request.deadline (request.ready + request.duration) }
{
    u64::from(request.deadline) < u64::from(request.ready) + u64::from(request.duration)
}

// The number after this one.
fn number_after(number: u32) -> u32
    requires { number ≤ 99999 }
    ensures { result ≡ number + 1 }
{
    number + 1
}

impl<'m, L: Units> Board<'m, L> {
    // What stands against a hold, before any search.
    pub fn hold_check(&self, request: Request) -> Result<(), Refusal>
        ensures { result ≡ allowed (hold_check (holding self.now).book request) }
    {
        if request.duration == 0 {
            return Err(Refusal::Duration);
        }
        if request.wanted == 0 || self.capacity < request.wanted {
            return Err(Refusal::Wanted);
        }
        if self.horizon < request.deadline || ends_late(request) {
            return Err(Refusal::Window);
        }
        if self.rows.spare() == 0 {
            return Err(Refusal::Full);
        }
        if LAST_NUMBER < self.next {
            return Err(Refusal::NumbersUsedUp);
        }
        Ok(())
    }

    // The start and the claim that the search over the slot list finds.
    fn sought<P: Policy>(&self, request: Request, policy: &P) -> Option<Found<L>>
        ensures { Sought L.kind (holding self.now) request (P.preference policy.now) result }
    {
        let search = Search {
            slots: self.slots.records(),
            capacity: self.capacity,
            horizon: self.horizon,
            request,
        };
        search.find_claim(policy)
    }

    // Enters the booking that was found under the next number, and puts its claim on the slots of its span.
    fn enter(&mut self, request: Request, found: Found<L>) -> Grant<L>
        requires { (hold_check (holding self.old).book request ≡ None) × (Findable L.kind (holding self.old) request (booked request found.rectangle.start found.claim)) }
        ensures answer { result ≡ grant_of self.old.next (booked request found.rectangle.start found.claim) }
        ensures board { holding self.new ≡ with_booking L.kind (holding self.old) (booked request found.rectangle.start found.claim) }
        ensures takes { Takes L.kind (holding self.new) (Ok result) }
        ensures memory { SameMemory self.old self.new }
    {
        let number = self.next;
        let start = found.rectangle.start;
        let end = start + request.duration;
        let claim = found.claim;
        let row = Row {
            number,
            booking: Booking { start, end, claim },
            state: State::Held,
        };
        self.add(row, number_after(number));
        Grant {
            number,
            start,
            end,
            claim,
            token: HoldToken {
                number,
                spent: false,
            },
        }
    }

    // Holds the booking that the policy ranks best, or says why not. The board takes the token of what it grants.
    pub fn hold<P: Policy>(&mut self, request: Request, policy: &P) -> Result<Grant<L>, Refusal>
        ensures answer { result ≡ hold_result (answer L.kind (holding self.old) (hold request (P.preference policy.now))) }
        ensures board { holding self.new ≡ after L.kind (holding self.old) (hold request (P.preference policy.now)) }
        ensures takes { Takes L.kind (holding self.new) result }
        ensures memory { SameMemory self.old self.new }
    {
        self.hold_check(request)?;
        let found = self.sought(request, policy).ok_or(Refusal::NoGap)?;
        Ok(self.enter(request, found))
    }
}
