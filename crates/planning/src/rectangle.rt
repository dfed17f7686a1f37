// The rectangle of a start: how many units are free throughout, from the opening minute up to the closing one.
#[derive(Clone, Copy, PartialEq, Eq, Debug)]
pub struct Rectangle {
    pub start: u32,
    pub units: u32,
    pub opening: u32,
    pub closing: u32,
}
