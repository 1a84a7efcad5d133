/// What a core tells its surroundings: that an instance begins, and that it has ended.
///
/// Its calls return, and tell the run nothing. A core calls `begin` after it has drawn the start ticket of instance k
/// of task t and before the instance's first instruction, and `end` after its last store and before it draws the end
/// ticket.
pub trait Gate {
    /// Instance k of task t begins on this core.
    fn begin(&self, core: u32, t: u32, k: u32);

    /// Instance k of task t made its last store on this core.
    fn end(&self, core: u32, t: u32, k: u32);
}

/// A gate that does nothing.
#[derive(Clone, Copy, Debug, PartialEq, Eq)]
pub struct OpenGate;

impl Gate for OpenGate {
    fn begin(&self, _core: u32, _t: u32, _k: u32) {}

    fn end(&self, _core: u32, _t: u32, _k: u32) {}
}
