ghost use Rattle.std.specs.Prelude.{◌≡◌};

use flat_machine::Stepped;
use page_peek::PageFault;

/// Whether a vCPU made an event.
#[derive(Clone, Copy, Debug, PartialEq, Eq)]
pub enum LazyStep {
    Event,
    /// The vCPU is halted, and nothing has changed.
    Halted,
    /// The file ends in the page that the event touches, which begins at this place in bytes from its start. Nothing
    /// has changed.
    Truncated { at: u64 },
    /// The page that the event touches couldn't be read. Nothing has changed.
    ReadFault,
}

impl LazyStep {
    ghost use Rattle.lazy_restore.specs.Answers.{failed_step, step_of};

    // The answer of an event.
    pub(crate) fn of(stepped: Stepped) -> LazyStep
        ensures { result ≡ step_of stepped }
    {
        match stepped {
            Stepped::Event => LazyStep::Event,
            Stepped::Halted => LazyStep::Halted,
        }
    }

    // The answer where a page wasn't read.
    pub(crate) fn failed(fault: PageFault) -> LazyStep
        ensures { result ≡ failed_step fault }
    {
        match fault {
            PageFault::Truncated { at } => LazyStep::Truncated { at },
            PageFault::ReadFault => LazyStep::ReadFault,
        }
    }
}
