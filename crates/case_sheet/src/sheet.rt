//! The cases of a sheet.

use crate::case::Case;
use std::alloc::{AllocError, Global};

/// Takes a line of a sheet: the head of a further case, or a line of the last one.
fn take_line(cases: &mut Vec<Case>, alloc: Global, line: &str) -> Result<(), AllocError> {
    if let Some(head) = line.strip_prefix("==== ") {
        let case = Case::headed(alloc, head)?;
        cases.push(case)?;
        return Ok(());
    }
    match cases.last_mut() {
        Some(case) => case.take(alloc, line),
        None => Ok(()),
    }
}

/// The cases of a sheet, in their order.
pub fn cases_of(alloc: Global, sheet: &str) -> Result<Vec<Case>, AllocError> {
    let mut cases = Vec::new(alloc);
    for line in sheet.lines() {
        take_line(&mut cases, alloc, line)?;
    }
    Ok(cases)
}
