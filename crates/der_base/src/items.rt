ghost use Rattle.std.specs.Prelude.{◌≡◌};
ghost use Rattle.std.specs.Iterator.{YieldsFirstBy, item_count};
ghost use Rattle.der_base.specs.Row.{item_of, items_left, items_of};

use crate::element::{Element, read_element};
use crate::fault::DerFault;

/// The elements of a content, one behind the other. It ends behind the first fault.
#[derive(Clone, Copy, Debug)]
pub struct Items<'a> {
    rest: &'a [u8],
}

impl<'a> Items<'a> {
    /// The elements of this content.
    pub fn new(content: &'a [u8]) -> Self
        ensures { items_left result ≡ items_of content.entry.now }
    {
        Items { rest: content }
    }
}

impl<'a> Iterator for Items<'a> {
    type Item = Result<Element<'a>, DerFault>;

    ghost next_gives = { YieldsFirstBy item_of items_left };

    ghost remaining = { item_count items_left };

    fn next(&mut self) -> Option<Result<Element<'a>, DerFault>> {
        if self.rest.is_empty() {
            return None;
        }
        match read_element(self.rest) {
            Ok((element, rest)) => {
                self.rest = rest;
                Some(Ok(element))
            }
            Err(fault) => {
                self.rest = &[];
                Some(Err(fault))
            }
        }
    }
}
