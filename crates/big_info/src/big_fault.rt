/// Why octets are no BIGInfo.
#[derive(Clone, Copy, Debug, PartialEq, Eq)]
pub enum BigFault {
    /// There are neither 33 nor 57 octets.
    Length,
}
