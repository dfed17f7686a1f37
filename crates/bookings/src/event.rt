// What may be done to a booking.
#[derive(Clone, Copy, PartialEq, Eq, Debug)]
pub enum Event {
    Confirm,
    Release,
    Cancel,
    Begin,
    Finish,
}
