/// A string of bits: how many bits at its end are unused, 0 to 7, and its octets.
#[derive(Clone, Copy, Debug, PartialEq, Eq)]
pub struct Bits<'a> {
    pub unused: u8,
    pub octets: &'a [u8],
}
