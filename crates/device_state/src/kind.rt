/// Which device's section begins.
#[derive(Clone, Copy, Debug, PartialEq, Eq)]
pub(crate) enum DeviceKind {
    Cpu,
    Serial,
}

/// Which version a serial section has.
#[derive(Clone, Copy, Debug, PartialEq, Eq)]
pub(crate) enum SerialForm {
    WithoutInput,
    WithInput,
}
