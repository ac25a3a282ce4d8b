//! The unit of the times of a written trace.

/// The unit of the fractions of a second in a written trace. Callers pass times in microseconds for both units.
#[derive(Clone, Copy, Debug, PartialEq, Eq)]
pub enum Unit {
    /// Microseconds.
    Micros,
    /// Nanoseconds.
    Nanos,
}
