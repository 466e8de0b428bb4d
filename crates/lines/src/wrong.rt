// The first wrong column of a line, from 1.
#[derive(Debug, Clone, Copy, PartialEq, Eq)]
pub struct WrongColumn {
    pub column: usize,
}
