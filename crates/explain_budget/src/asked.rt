// What is asked of declared bounds.

/// The file of bounds, and how its lines are told.
#[derive(Clone, Copy, Debug)]
pub(crate) struct Asked<'a> {
    /// The name of the file.
    pub(crate) name: &'a str,
    /// What it holds.
    pub(crate) bytes: &'a [u8],
    /// The width of lines, where they are broken.
    pub(crate) width: Option<u32>,
    /// Lines are objects of JSON.
    pub(crate) json: bool,
}
