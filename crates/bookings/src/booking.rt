// A booking: `claim` is taken from minute `start` on and before minute `end`.
#[derive(Clone, Copy, PartialEq, Eq, Debug)]
pub struct Booking<L> {
    pub start: u32,
    pub end: u32,
    pub claim: L,
}
