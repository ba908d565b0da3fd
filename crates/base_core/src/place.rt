/// A place in the source, as reports show it. Lines and columns begin at 1, and a column counts bytes. File 0 is the
/// file that the command names; the others are the files of line markers, numbered in order of first appearance.
#[derive(Clone, Copy, Debug, PartialEq, Eq, PartialOrd, Ord, Hash)]
pub struct Place {
    pub file: u32,
    pub line: u32,
    pub column: u32,
}
