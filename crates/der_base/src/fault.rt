use std::error::Error;
use std::fmt;

/// Why octets are no element, or an element is not the value that was asked for.
#[derive(Clone, Copy, Debug, PartialEq, Eq)]
pub enum DerFault {
    /// The octets end before the element does.
    Short,
    /// The tag takes more than one octet, or is not that of the value's type.
    BadTag,
    /// The length is indefinite, has more octets than it needs or more than four of them (X.690, 10.1), or the content is not of
    /// the type's form.
    BadLength,
    /// Octets remain behind the one element.
    Trailing,
}

impl fmt::Display for DerFault {
    ghost use Rattle.std.specs.Prelude.{Some};
    ghost use Rattle.der_base.specs.Fault.{fault_text};

    ghost output = { λ fault. Some (fault_text fault) };

    fn fmt<W: fmt::Write>(&self, f: &mut fmt::Formatter<W>) -> fmt::Result {
        match self {
            DerFault::Short => f.write_str("the octets end before the element does"),
            DerFault::BadTag => f.write_str("the tag is another"),
            DerFault::BadLength => f.write_str("the length or the content is not in DER's form"),
            DerFault::Trailing => f.write_str("octets remain behind the element"),
        }
    }
}

impl Error for DerFault {}
