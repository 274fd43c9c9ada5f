// A load that ends for want of memory, in words.
use thiserror::Error;

/// There is no memory for the units of the file at this path.
#[derive(Clone, Copy, Debug, Error)]
#[error("load refused: no memory for the units of {path}")]
pub struct NoMemory<'a> {
    pub path: &'a str,
}
