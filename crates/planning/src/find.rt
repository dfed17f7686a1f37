ghost use Rattle.std.specs.Prelude.{◌≡◌, suc, ◌-◌, ◌≤◌, true, map, length, drop, Some};
ghost use Rattle.planning.specs.Policies.{before};
ghost use Rattle.planning.specs.Requests.{in_window};
ghost use Rattle.planning.specs.Searches.{granted_in, found_in, RightIn};
ghost use Rattle.planning.specs.Tries.{found_at, rectangle_of, IsHit, GoesOn, better_of, trying};
ghost use Rattle.planning.specs.declared.rectangle.Rectangle.{Rectangle};
ghost use Rattle.slots.specs.Stepped.{minutes, ascends, Ascending};

use crate::found::Found;
use crate::policy::Policy;
use crate::rectangle::Rectangle;
use crate::request::Request;
use crate::walk::{Around, joined_over};
use slots::slot::Slot;
use units::kind::Units;

// A request, and where it is looked for: in the loads that the records say, with so many units, up to the horizon.
#[derive(Clone, Copy)]
pub struct Search<'a, L> {
    pub slots: &'a [Slot<L>],
    pub capacity: u32,
    pub horizon: u32,
    pub request: Request,
}

// A start that was found: its rectangle, and the joined loads that the request meets there.
// Stays: a type of its own beside Found, and no plainer as one: a name for both fields would hide that one is a claim and the other a load.
#[derive(Clone, Copy)]
struct Hit<L> {
    rectangle: Rectangle,
    over: L,
}

// Would the request begin when it is ready or later, and end by its deadline?
fn in_window(request: Request, start: u32) -> bool
    ensures { result ≡ in_window request start }
{
    request.ready <= start
        && start <= request.deadline
        && request.duration <= request.deadline - start
}

impl<L: Units> Hit<L> {
    // Is the stretch around `start`, where the request meets `over`, sure to be that of the hit?
    fn goes_on(&self, over: L, start: u32, horizon: u32) -> bool
        ensures { result ≡ true → GoesOn self.now over start horizon }
    {
        let r = self.rectangle;
        r.opening <= start && start < r.closing && r.closing <= horizon && self.over.same(over)
    }
}

// Is `a` preferred, or no less preferred and earlier?
fn goes_before<P: Policy>(policy: &P, a: &Rectangle, b: &Rectangle) -> bool
    ensures { result ≡ before (P.preference policy.now) a.now b.now }
{
    policy.prefers(a, b) || (!policy.prefers(b, a) && a.start < b.start)
}

// The best so far, unless the next goes before it.
fn better_of<L: Units, P: Policy>(
    policy: &P,
    best: Option<Rectangle>,
    next: Option<Hit<L>>,
) -> Option<Rectangle>
    ensures { result ≡ better_of (P.preference policy.now) best (rectangle_of next) }
{
    match (best, next) {
        (_, None) => best,
        (None, Some(q)) => Some(q.rectangle),
        (Some(r), Some(q)) => {
            if goes_before(policy, &q.rectangle, &r) {
                Some(q.rectangle)
            } else {
                best
            }
        }
    }
}

// Is the best so far sure to stay, whatever is found at `start`?
fn settled<P: Policy>(policy: &P, best: Option<Rectangle>, start: u32) -> bool
    ensures { result ≡ true → (q : Rectangle) → q.start ≡ start → better_of (P.preference policy.now) best (Some q) ≡ best }
{
    best.is_some_and(|r| r.start <= start && policy.earlier_first())
}

impl<'a, L: Units> Search<'a, L> {
    // The hit of `start`, if the request can start there. No record from `hint` on stands at or before it; the last hit may spare a walk.
    fn found_at(&self, hint: usize, start: u32, last: Option<Hit<L>>) -> Option<Hit<L>>
        requires { hint ≤ length self.now.slots.now }
        ensures { Ascending 0 self.now.slots.now → Ascending (suc start) (drop hint self.now.slots.now) → IsHit L.kind self.now last → (rectangle_of result ≡ found_at L.kind self.now start) × IsHit L.kind self.now result }
    {
        if !in_window(self.request, start) {
            return None;
        }
        let around = Around::new(self.slots, hint, start);
        let over = around.joined(self.request.duration);
        let units = over.free(self.capacity);
        if units < self.request.wanted {
            return None;
        }
        let (opening, closing) = match last {
            Some(hit) if hit.goes_on(over, start, self.horizon) => {
                (hit.rectangle.opening, hit.rectangle.closing)
            }
            _ => (around.opening(over), around.closing(over, self.horizon)),
        };
        let rectangle = Rectangle {
            start,
            units,
            opening,
            closing,
        };
        Some(Hit { rectangle, over })
    }

    // The best so far, once the starts that are `lead` minutes ahead of a record are tried.
    fn best_ahead<P: Policy>(
        &self,
        policy: &P,
        lead: u32,
        so_far: Option<Rectangle>,
    ) -> Option<Rectangle>
        ensures { Ascending 0 self.now.slots.now → result ≡ trying L.kind (P.preference policy.now) self.now so_far (map (λ m. m - lead) (minutes self.now.slots.now)) }
    {
        let mut best = so_far;
        let mut last = None;
        for (i, slot) in self.slots.iter().enumerate() {
            let start = slot.minute.saturating_sub(lead);
            if !settled(policy, best, start) {
                let found = self.found_at(i + 1, start, last);
                best = better_of(policy, best, found);
                last = found.or(last);
            }
        }
        best
    }

    // The rectangle of the start that is granted to the request, if any.
    pub fn find_start<P: Policy>(&self, policy: &P) -> Option<Rectangle>
        ensures which { ascends 0 self.now.slots.now ≡ true → result ≡ granted_in L.kind (P.preference policy.now) self.now }
        ensures right { ascends 0 self.now.slots.now ≡ true → self.now.capacity ≤ L.kind.most → 1 ≤ self.now.request.wanted → 1 ≤ self.now.request.duration → RightIn L.kind (P.preference policy.now) self.now result }
    {
        let all = self.slots.len();
        let request = self.request;
        let latest = request.deadline.saturating_sub(request.duration);
        let soonest = self.found_at(all, request.ready, None);
        let first = better_of(policy, None, soonest);
        let last = self.found_at(all, latest, soonest);
        let ends = better_of(policy, first, last);
        let begins = self.best_ahead(policy, 0, ends);
        self.best_ahead(policy, request.duration, begins)
    }

    // The start that is granted to the request and the claim that it is given there, if any.
    pub fn find_claim<P: Policy>(&self, policy: &P) -> Option<Found<L>>
        ensures { ascends 0 self.now.slots.now ≡ true → result ≡ found_in L.kind (P.preference policy.now) self.now }
    {
        let rectangle = self.find_start(policy)?;
        let over = joined_over(self.slots, rectangle.start, self.request.duration);
        let claim = over.pick(self.request.wanted, self.capacity)?;
        Some(Found { rectangle, claim })
    }
}
