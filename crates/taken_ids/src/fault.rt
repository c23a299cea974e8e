use uuid::Uuid;

/// Why a module can't be rewritten.
#[derive(Clone, Copy, Debug, PartialEq, Eq)]
pub enum RewriteFault {
    /// A derived identifier that a node holds, that a table names, or that was derived before.
    IdTaken(Uuid),
}
