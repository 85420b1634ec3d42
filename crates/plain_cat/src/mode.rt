//! The lock modes, and which of them go together.

ghost use Rattle.std.specs.Prelude.{◌≡◌};
ghost use Rattle.plain_cat.specs.Modes.{compatible_modes};

/// The six lock modes of the $ENQ lock manager, from the weakest to the strongest.
#[derive(Clone, Copy, Debug, PartialEq)]
pub enum Mode {
    /// Null: a place in the queue, and no access.
    NL,

    /// Concurrent read.
    CR,

    /// Concurrent write.
    CW,

    /// Protected read.
    PR,

    /// Protected write.
    PW,

    /// Exclusive.
    EX,
}

/// Whether a lock in the one mode and a lock in the other go together on one resource: the table of the $ENQ lock
/// manager, which is symmetric.
pub fn compatible(a: Mode, b: Mode) -> bool
    ensures { result ≡ compatible_modes a b }
{
    match (a, b) {
        (Mode::NL, _) | (_, Mode::NL) => true,
        (Mode::CR, _) => b != Mode::EX,
        (_, Mode::CR) => a != Mode::EX,
        (Mode::CW, Mode::CW) | (Mode::PR, Mode::PR) => true,
        _ => false,
    }
}
