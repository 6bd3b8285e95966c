//! The token of a query in hand.
ghost use Rattle.std.specs.Prelude.{◌≡◌, true};

/// The token of a collected query, with its serial and the set that asked. It has to be ended by handing over or putting
/// back: its drop is allowed only when it is spent, and only those two calls spend it. They take it by value, so that it
/// cannot be spent twice.
pub struct Handover {
    pub(crate) serial: u32,
    pub(crate) set: u16,
    pub(crate) spent: bool,
}

impl Handover {
    pub fn serial(&self) -> u32
        ensures { result ≡ self.now.serial }
    {
        self.serial
    }

    pub fn set(&self) -> u16
        ensures { result ≡ self.now.set }
    {
        self.set
    }
}

impl Drop for Handover {
    fn drop(self)
        requires { self.spent ≡ true }
    {
        let Handover {
            serial: _,
            set: _,
            spent: _,
        } = self;
    }
}
