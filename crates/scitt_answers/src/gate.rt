/// What is called just outside each check of a statement's signature, which stands in no turn.
pub trait Gate {
    /// Just before a check.
    fn before_check(&mut self);

    /// Just behind it.
    fn after_check(&mut self);
}

/// A gate that does nothing.
#[derive(Clone, Copy, Debug, PartialEq, Eq)]
pub struct NoGate;

impl Gate for NoGate {
    fn before_check(&mut self) {}

    fn after_check(&mut self) {}
}
