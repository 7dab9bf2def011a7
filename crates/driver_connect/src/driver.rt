//! The trait of drivers.
ghost use Rattle.std.specs.Prelude.{◌≡◌};

use crate::view::{StartPlan, View};

/// A driver. What it answers is a function of the driver and of what it is shown.
pub trait Driver: Drop {
    ghost use Rattle.driver_connect.specs.Drivers.{Meaning};

    ghost meaning: { Self → Meaning };

    /// Of two drivers the one with the higher version is tried first.
    fn version(&self) -> u32
        ensures { result ≡ (meaning self.now).version };

    /// Whether the driver can be started on a controller.
    fn supported(&self, v: &View) -> bool
        ensures { result ≡ (meaning self.now).supports v.now };

    /// What starting the driver on a controller does.
    fn plan(&self, v: &View) -> StartPlan
        ensures { result ≡ (meaning self.now).plan v.now };

    /// Whether the driver lets itself be stopped on a controller.
    fn may_stop(&self, v: &View) -> bool
        ensures { result ≡ (meaning self.now).may_stop v.now };
}

/// A boxed driver answers as the driver in it.
impl Driver for Box<dyn Driver> {
    ghost meaning = { λ d. (Driver-box d).meaning d.value };

    fn version(&self) -> u32 {
        (**self).version()
    }

    fn supported(&self, v: &View) -> bool {
        (**self).supported(v)
    }

    fn plan(&self, v: &View) -> StartPlan {
        (**self).plan(v)
    }

    fn may_stop(&self, v: &View) -> bool {
        (**self).may_stop(v)
    }
}
