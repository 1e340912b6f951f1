//! The rows of a file, and what is told of those that differ.
use crate::calls::Objects;
use crate::row::Row;
use std::alloc::{AllocError, Global};

/// What a file's rows come to.
#[derive(Drop)]
pub struct Report {
    /// `FILE:LINE: ASKED => TOLD` for each row that is told otherwise than wanted.
    pub lines: String,
    /// How many rows there are.
    pub rows: u64,
    /// How many are told otherwise.
    pub differ: u64,
}

impl Report {
    fn add(
        &mut self,
        alloc: Global,
        file: &str,
        number: usize,
        told: &str,
    ) -> Result<(), AllocError> {
        let line = format!(in alloc; "{file}:{number}: {told}\n")?;
        self.lines.push_str(line.as_str())?;
        self.differ = self.differ.saturating_add(1);
        Ok(())
    }
}

// How a line `ASKED => WANTED` is told, where that is otherwise than it says.
fn difference(
    alloc: Global,
    objects: &mut Objects,
    line: &str,
) -> Result<Option<String>, AllocError> {
    let Some((asked, wanted)) = line.split_once(" => ") else {
        return Ok(Some(format!(in alloc; "{line} => a row without an answer")?));
    };
    let mut row = Row::new(alloc, asked);
    objects.call(&mut row);
    row.difference(asked, wanted)
}

/// Looks at each row of a file's text. Empty lines and comments are none.
pub fn report_of(alloc: Global, file: &str, text: &str) -> Result<Report, AllocError> {
    let mut objects = Objects::new(alloc)?;
    let mut report = Report {
        lines: String::new(alloc),
        rows: 0,
        differ: 0,
    };
    let mut number: usize = 0;
    for line in text.lines() {
        number = number.saturating_add(1);
        if !line.is_empty() && !line.starts_with("//") {
            report.rows = report.rows.saturating_add(1);
            if let Some(told) = difference(alloc, &mut objects, line)? {
                report.add(alloc, file, number, told.as_str())?;
            }
        }
    }
    Ok(report)
}
