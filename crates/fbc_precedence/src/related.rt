//! What the recording of a pair answers.

/// What `Graph::relate` answers. Only `Recorded` changes the graph.
#[derive(Clone, Copy, Debug, PartialEq, Eq)]
pub enum Related {
    /// The pair is recorded.
    Recorded,
    /// The high page stands before the low one already.
    Already,
    /// This page, the low one, stands before the high one, and has to be written first.
    WriteFirst { page: u32 },
}
