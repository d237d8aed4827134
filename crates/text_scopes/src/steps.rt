//! What an event is to the names of one kind, as those of values or labels.

/// What an event is to the names.
#[derive(Clone, Copy, Drop)]
pub enum Step {
    /// It defines its name.
    Defines,
    /// It uses its name.
    Uses,
    /// It uses its name where no definition may serve it.
    Misses,
    /// A region begins.
    Opens,
    /// A region ends.
    Closes,
    /// No name goes over it.
    Ends,
    /// Nothing.
    Stays,
}
