// The windows that are looked at.
ghost use Rattle.std.specs.Prelude.{◌≡◌, ◌<◌, ◌≤◌, MatchOption};
ghost use Rattle.bus.specs.Bound.{horizon};

// The longest window that is looked at.
const HORIZON: u32 = 4_194_304;

// How long such a window is.
#[derive(Clone, Copy)]
pub(crate) struct Window {
    pub(crate) bits: u32,
    ghost within: { bits ≤ horizon },
}

impl Window {
    pub(crate) fn new(bits: u32) -> Self
        requires { bits ≤ horizon }
        ensures { result.bits ≡ bits }
    {
        Window { bits }
    }

    // The window of so many bits, or None above the horizon.
    pub(crate) fn up_to_horizon(bits: u64) -> Option<Self>
        ensures { MatchOption result (horizon < bits) (λ w. w.bits ≡ bits) }
    {
        (bits <= u64::from(HORIZON)).then(|| Window::new(bits as u32))
    }
}
