/// A step of the mover: the point of the other side that it comes to, or 0 where it bears off, and the number of the layout that it
/// leaves.
#[derive(Clone, Copy, Default)]
pub(crate) struct Leap {
    pub(crate) lands: u8,
    pub(crate) to: u16,
}
