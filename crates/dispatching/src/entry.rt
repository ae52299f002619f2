use keeping::Record;
use roster::Feed;

/// A feed of a board, and what is kept of it.
#[derive(Clone, Copy)]
pub struct Entry<'a> {
    pub feed: Feed,
    pub record: &'a Record,
}
