use cbor_core::Fault;

/// What a piece came to.
#[derive(Clone, Copy, Debug, PartialEq, Eq, Drop)]
pub enum Fed {
    /// The bytes so far are the beginning of an item, or of one whose fault is still to come.
    NeedMore,
    /// The item is whole: so many bytes of the piece were used.
    Done(usize),
    /// The bytes so far spell no item, whatever follows: the first fault in reading order.
    Fault(Fault),
    /// Memory ran out.
    OutOfMemory,
}
