// A request: it takes `wanted` units for `duration` minutes, from `ready` on, and ends by `deadline`.
#[derive(Clone, Copy)]
pub struct Request {
    pub ready: u32,
    pub duration: u32,
    pub deadline: u32,
    pub wanted: u32,
}
