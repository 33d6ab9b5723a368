//! Bodies that are a SEQUENCE OF SEQUENCE.
ghost use Rattle.std.specs.Prelude.{◌≡◌};
ghost use Rattle.der_base.specs.Reading.{part_of};
ghost use Rattle.asn_fields.specs.Fields.{Gives};
ghost use Rattle.asn_fields.specs.Rows.{row_view};
ghost use Rattle.pki_parts.specs.Lists.{list_at};

use asn_fields::{BadForm, Entry, Row, read_row};
use der_base::Element;

/// Reads a SEQUENCE of entries, each in a SEQUENCE of its own, all of them. `BadForm` where one is none.
#[tactic(auto, unfolding(crate::specs::Lists::list_at))]
pub(crate) fn read_list<'a, T: Entry<'a>>(e: &Element<'a>) -> Result<Row<T>, BadForm>
    ensures { Gives (row_view T.form_of) result (list_at T.reading (part_of e.now)) }
{
    if e.tag == 0x30 {
        read_row(0x30, e.content)
    } else {
        Err(BadForm)
    }
}
