//! How a row is tried: as it stands, with a device that fails at one call, and with a page that ends too early.
use serde_json::Value;

/// A device of a run: the shelf that is read, and the sinks of what is written and of what is said.
#[derive(Clone, Copy, PartialEq, Eq)]
pub(crate) enum Device {
    Reads,
    Writes,
    Says,
}

pub(crate) const DEVICES: &[Device] = &[Device::Reads, Device::Writes, Device::Says];

impl Device {
    /// The member of a row that says how the device behaves.
    pub(crate) fn behavior(self) -> &'static str {
        match self {
            Device::Reads => "reads",
            Device::Writes => "writes",
            Device::Says => "says",
        }
    }

    /// The member of a row whose calls of the device fail one after another, and which says how many these are.
    pub(crate) fn failures(self) -> &'static str {
        match self {
            Device::Reads => "each_read",
            Device::Writes => "each_write",
            Device::Says => "each_say",
        }
    }

    /// How many calls of the device the row says there are.
    pub(crate) fn calls(self, row: &Value) -> Option<u64> {
        row.get(self.failures())?.as_u64()
    }
}

#[derive(Clone, Copy)]
pub(crate) enum Turn {
    /// As the row stands.
    Plain,
    /// The device does so many calls, and fails at the next one.
    Failing(Device, u64),
    /// Each file ends after `length` bytes. `token` is where the token begins that isn't whole there.
    Cut { length: usize, token: u64 },
}

impl Turn {
    /// The number of the device's call that fails.
    pub(crate) fn failing_call(self, device: Device) -> Option<u64> {
        match self {
            Turn::Failing(failing, done) if failing == device => Some(done.saturating_add(1)),
            _ => None,
        }
    }

    /// How many bytes there are of each file, where it is cut.
    pub(crate) fn length(self) -> Option<usize> {
        match self {
            Turn::Cut { length, .. } => Some(length),
            _ => None,
        }
    }
}
