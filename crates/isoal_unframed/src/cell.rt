/// What is kept of a payload number, in the place of Max_PDU octets that it has in the block.
#[derive(Clone, Copy)]
pub(crate) enum Cell {
    /// Nothing.
    Empty,
    /// A start or continuation fragment of so many octets.
    Fragment(u8),
    /// The end of a unit, of so many octets.
    End(u8),
}
