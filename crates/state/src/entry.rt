// What the record table has of a record: the row in place, its last time, and its holder.
#[derive(Clone, Copy)]
pub struct Entry<Row> {
    pub(crate) row: Row,
    pub(crate) last: u32,
    pub(crate) holder: Option<u32>,
}
