/// What came of a client's step.
#[derive(Clone, Copy, Debug, PartialEq, Eq)]
pub enum Step {
    /// The client has no work.
    Idle,
    /// The step was made, and told nothing.
    Moved,
    /// Another client holds the file manager, and this step needs it.
    Blocked { holder: u8 },
    /// The step was made, and told lines.
    Answered,
}
