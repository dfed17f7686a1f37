use crate::rectangle::Rectangle;

// What is granted to a request: where it starts, and with which claim.
#[derive(Clone, Copy)]
pub struct Found<L> {
    pub rectangle: Rectangle,
    pub claim: L,
}
