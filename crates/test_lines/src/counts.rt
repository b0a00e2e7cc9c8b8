/// The counts that the first line of a report tells.
#[derive(Clone, Copy, Debug, PartialEq, Eq)]
pub struct Counts {
    pub blocked: u64,
    pub faults: u64,
    pub sweep: u64,
}

impl Counts {
    /// How many pages were copied.
    pub fn pages(&self) -> u64 {
        self.faults.saturating_add(self.sweep)
    }
}

/// The counts of a text that begins so, and what stands behind its first line.
pub fn counts_behind<'a>(text: &'a str, begins: &str) -> Option<(Counts, &'a str)> {
    let (line, rest) = text.split_once('\n')?;
    let (_, blocked) = line.strip_prefix(begins)?.split_once(" blocked ")?;
    let (blocked, faults) = blocked.split_once(" faults ")?;
    let (faults, sweep) = faults.split_once(" sweep ")?;
    let counts = Counts {
        blocked: blocked.parse().ok()?,
        faults: faults.parse().ok()?,
        sweep: sweep.parse().ok()?,
    };
    Some((counts, rest))
}
