ghost use Rattle.der_base.specs.Element.{HasOneSpelling, BeginsNoOther};
ghost use Rattle.der_base.specs.Row.{RowIsRead};

/// One content under one tag has one spelling.
pub fn one_spelling()
    ensures { HasOneSpelling }
{}

/// No element begins another one.
pub fn begins_no_other()
    ensures { BeginsNoOther }
{}

/// The items of octets are all elements exactly where the octets are a row of elements.
pub fn row_is_read()
    ensures { RowIsRead }
{}
