// The text of a list of places.
use formula::CellRef;
use std::alloc::{AllocError, Global};
use std::fmt::Write;

// Before each place a space.
pub(crate) fn listed(heap: Global, places: &[CellRef]) -> Result<String, AllocError> {
    let mut text = String::new(heap);
    for place in places {
        write!(text, " {place}")?;
    }
    Ok(text)
}
