/// How a save ended.
#[derive(Clone, Copy, Debug, PartialEq, Eq)]
pub enum SaveEnd {
    /// The whole file was written, and stands.
    Complete,
    /// A call on the file failed.
    Failed,
}
