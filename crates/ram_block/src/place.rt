/// What an access to an address is for.
#[derive(Clone, Copy, Debug, PartialEq, Eq)]
pub enum Way {
    Fetch,
    Load,
    Store,
    Amo,
}

/// How many bytes an access moves.
#[derive(Clone, Copy, Debug, PartialEq, Eq)]
pub enum Width {
    One,
    Two,
    Four,
    Eight,
}

/// A register of the serial device.
#[derive(Clone, Copy, Debug, PartialEq, Eq)]
pub enum SerialReg {
    Tx,
    Rx,
    Status,
}

/// A register of the timer.
#[derive(Clone, Copy, Debug, PartialEq, Eq)]
pub enum TimerReg {
    Time,
    Cmp,
    Due,
}

/// Where an access goes. A page number counts over all blocks, and `off` is in bytes from the page's start.
#[derive(Clone, Copy, Debug, PartialEq, Eq)]
pub enum Place {
    Ram { page: u32, off: u32 },
    Serial(SerialReg),
    Timer(TimerReg),
}
