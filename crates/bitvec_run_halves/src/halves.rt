//! The two halves of a window.
ghost use Rattle.std.specs.Prelude.{◌≡◌, ◌+◌, ◌<◌, ◌≤◌, ◌^◌};
ghost use Rattle.bitvec_run_halves.specs.Sides.{side_window};

use bitvec_base::Window;

/// Which half of a view a step of [`crate::run_halves`] works on.
#[derive(Clone, Copy, PartialEq, Eq, Debug)]
pub enum Side {
    /// The bits before the cut.
    Left,
    /// The bits from the cut on.
    Right,
}

/// Where a half of a window stands that is cut at `mid`. Condition: the window has so many bits, and
/// its end is a `usize`.
pub(crate) fn side_window(window: Window, mid: usize, side: Side) -> Window
    requires bound { mid ≤ window.len }
    requires end { window.start + window.len < 2 ^ 64 }
    ensures { result ≡ side_window window mid side }
{
    match side {
        Side::Left => window.range(0, mid),
        Side::Right => window.range(mid, window.len),
    }
}
