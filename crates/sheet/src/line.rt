// A line of a sheet: its own part of the sheet's bytes, without the end, and the place where it begins.
#[derive(Clone, Copy, Debug, PartialEq, Eq)]
pub struct Line<'a> {
    pub at: usize,
    pub bytes: &'a [u8],
}
