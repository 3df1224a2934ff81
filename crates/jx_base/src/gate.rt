//! What a worker passes before each step.

/// A place that each worker passes before a step. It may look and wait, and answers nothing.
pub trait Gate {
    /// Takes the number of the domain, and how many entries its pass has made.
    fn pass(&self, domain: u32, made: u32);
}

/// A gate that does nothing.
#[derive(Clone, Copy)]
pub struct OpenGate;

impl Gate for OpenGate {
    fn pass(&self, _domain: u32, _made: u32) {}
}
