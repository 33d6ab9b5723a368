//! SEQUENCE OF and SET OF: a row of entries.
ghost use Rattle.std.specs.Prelude.{◌≡◌, ℕ, List, Option};
ghost use Rattle.asn_fields.specs.Fields.{Gives};
ghost use Rattle.der_base.specs.Row.{item_of};
ghost use Rattle.asn_fields.specs.Rows.{row_at};

use crate::fault::BadForm;
use der_base::{DerFault, Element, Items};

/// A type of entry, read from the content of its element.
pub trait Entry<'a>: Copy {
    /// What an entry shows, as lists.
    ghost Form: { Type 0 };

    ghost form_of: { Self → Form };

    /// What reading a content gives.
    ghost reading: { List ℕ → Option Form };

    /// Reads what stands in the element. `BadForm` where the octets are not in the form of an entry.
    fn read(content: &'a [u8]) -> Result<Self, BadForm>
        ensures { Gives form_of result (reading content.now) };
}

/// A row of entries, each of which was read: how many they are, and the first one.
#[derive(Clone, Copy, Debug, PartialEq, Eq)]
pub struct Row<T> {
    pub count: u64,
    pub first: Option<T>,
}

ghost use Rattle.asn_fields.specs.Rows.{item_at, row_view};

/// Reads an entry, which has this tag.
fn read_entry<'a, T: Entry<'a>>(tag: u8, item: Result<Element<'a>, DerFault>) -> Result<T, BadForm>
    ensures { Gives T.form_of result (item_at T.reading tag (item_of item.entry)) }
{
    let element = item?;
    if element.tag == tag {
        T::read(element.content)
    } else {
        Err(BadForm)
    }
}

/// Reads a content that is a row of elements with this tag, each an entry, nothing over (X.690, 8.10 and 8.12). `BadForm` where one
/// of them is none, wherever it stands.
#[tactic(auto, unfolding(crate::specs::Rows::row_at))]
pub fn read_row<'a, T: Entry<'a>>(tag: u8, content: &'a [u8]) -> Result<Row<T>, BadForm>
    ensures { Gives (row_view T.form_of) result (row_at T.reading tag content.now) }
{
    let mut count = 0u64;
    let mut first = None;
    for item in Items::new(content) {
        let entry = read_entry::<T>(tag, item)?;
        if count == 0 {
            first = Some(entry);
        }
        count += 1;
    }
    Ok(Row { count, first })
}
