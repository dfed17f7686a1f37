use crate::token::HoldToken;

// What a granted hold answers: the booking under its number, and the token that must be confirmed or released.
pub struct Grant<L> {
    pub number: u32,
    pub start: u32,
    pub end: u32,
    pub claim: L,
    pub token: HoldToken,
}
