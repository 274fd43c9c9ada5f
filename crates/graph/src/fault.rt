use thiserror::Error;

/// Why a search is refused: a list that is not 64 bytes long, with its length.
#[derive(Clone, Copy, PartialEq, Eq, Debug, Error)]
pub enum ListFault {
    #[error("the circle list has {0} bytes, not 64")]
    CircleLength(usize),
    #[error("the marks have {0} bytes, not 64")]
    MarksLength(usize),
}
