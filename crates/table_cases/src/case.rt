//! The lines of a table.

/// A case: its name, its input and the outcome that is wanted.
#[derive(Clone, Copy)]
pub struct Case<'a> {
    pub name: &'a str,
    pub input: &'a str,
    pub wanted: &'a str,
}

/// The case of a line `NAME: INPUT => OUTCOME`, where the input and the outcome may be empty; `None`
/// where the line isn't one.
pub fn case_of(line: &str) -> Option<Case<'_>> {
    let (name, rest) = line.split_once(':')?;
    let (input, wanted) = rest.split_once("=>")?;
    Some(Case {
        name,
        input: input.trim(),
        wanted: wanted.trim(),
    })
}
