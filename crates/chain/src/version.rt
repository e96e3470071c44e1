// A change, and the time at which the row before it was finished over.
#[derive(Clone, Copy)]
pub struct Version<C> {
    pub time: u32,
    pub change: C,
}
