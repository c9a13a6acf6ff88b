/// How a session ended.
#[derive(Clone, Copy, Debug, PartialEq, Eq)]
pub enum SessionEnd {
    /// At `quit`.
    Quit,
    /// At the end of the input.
    End,
    /// At a line past the limits.
    Long,
    /// At a read that failed.
    ReadFault,
    /// At a write that failed.
    WriteFault,
    /// Before the first read: the buffers found no memory.
    Memory,
}
