ghost use Rattle.std.specs.Prelude.{◌≡◌, ◌<◌, ◌∷◌, [], false, None, IfSome, length};

use page_cell::{PageBuf, Pick, Plant, Taken};

/// Two pages, of which the one that is taken first is found held. Meanwhile a vCPU faults on it, so it is queued.
#[derive(Drop)]
pub(crate) struct HeldOnce {
    writable: [bool; 2],
    picked: [bool; 2],
    queued: Option<u32>,
    busy: u64,
    picks: u64,
    last: Option<Pick>,
}

/// What a pick and a take don't change: nothing.
pub(crate) struct NoRest;

/// Both pages are protected.
pub(crate) fn held_once() -> HeldOnce
    ensures writable { result.writable ≡ false ∷ false ∷ [] }
    ensures picked { result.picked ≡ false ∷ false ∷ [] }
    ensures queued { result.queued ≡ None }
{
    HeldOnce {
        writable: [false; 2],
        picked: [false; 2],
        queued: None,
        busy: 0,
        picks: 0,
        last: None,
    }
}

impl Plant for HeldOnce {
    type Rest = NoRest;

    ghost total = { λ d. 2 };

    ghost writable = { λ d. d.writable };

    ghost picked = { λ d. d.picked };

    ghost busy = { λ d. d.busy };

    ghost rest = { λ d. record {} };

    // No instant is told by it.
    ghost stands = { λ d pages. ⊥ };

    ghost fits = { λ d. (length d.writable ≡ 2) × (length d.picked ≡ 2) × IfSome d.queued (λ p. p < 2) };

    ghost picks = { λ d. d.picks };

    ghost last = { λ d. d.last };

    ghost queue = { λ d. None };

    ghost flags = { λ plant fits. (fits.0, fits.1) };

    ghost one_list = { λ plant a b fits protected stands other. absurd stands };

    fn pick(&mut self) -> Pick {
        let answer = match self.queued {
            Some(page) => {
                self.picked[page as usize] = true;
                Pick::Fault(page)
            }
            None => Pick::Empty,
        };
        self.queued = None;
        self.picks = self.picks.saturating_add(1);
        self.last = Some(answer);
        answer
    }

    fn take(&mut self, page: u32, into: &mut PageBuf) -> Taken {
        if self.writable[page as usize] {
            return Taken::Stale;
        }
        if self.busy == 0 {
            self.busy = 1;
            self.queued = Some(page);
            return Taken::Busy;
        }
        self.writable[page as usize] = true;
        Taken::Copied
    }
}
