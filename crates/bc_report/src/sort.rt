//! What a line between parts is for.

/// What a line is by its first field, where a part may begin.
#[derive(Clone, Copy)]
pub(crate) enum Sort {
    Thread,
    Shard,
    Device,
    End,
    Other,
}
