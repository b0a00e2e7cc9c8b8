ghost use Rattle.std.specs.Prelude.{◌≡◌, ◌≤◌, None, length, IfOk};

use crate::counted::count_fault;
use crate::real_file::{go_to, open_apart, read_whole, whole_len};
use medium::{Failed, Medium, Readable};
use std::fs::{File, OpenFile};
use std::io::Write;
use std::os::fd::AsRawFd;
use std::rt::Files;

/// How a file is opened.
#[derive(Clone, Copy, Debug, PartialEq, Eq)]
pub enum Opening {
    /// A file that is there, for reading alone.
    Existing,
    /// A file that is made where it is missing, and not cut, for reading and writing.
    MadeIfMissing,
}

/// A file on the disk, opened at the first call. Without a path each call fails.
#[derive(Drop)]
pub struct FileMedium<'a, R: Files> {
    rt: &'a R,
    path: Option<&'a str>,
    opening: Opening,
    file: Option<R::File>,
    faults: u64,
    syncs: u64,
}

impl<'a, R: Files> FileMedium<'a, R>
where
    R::File: AsRawFd,
{
    pub fn new(rt: &'a R, path: Option<&'a str>, opening: Opening) -> Self {
        FileMedium {
            rt,
            path,
            opening,
            file: None,
            faults: 0,
            syncs: 0,
        }
    }

    fn open(&mut self) -> Result<(), Failed>
        ensures faults { self.new.faults ≡ self.old.faults }
        ensures syncs { self.new.syncs ≡ self.old.syncs }
    {
        if self.file.is_none() {
            let path = self.path.ok_or(Failed)?;
            let mut how = File::options();
            how.read(true);
            if self.opening == Opening::MadeIfMissing {
                how.write(true);
                how.create(true);
            }
            self.file = Some(open_apart(self.rt, path, &how)?);
        }
        Ok(())
    }

    fn try_len(&mut self) -> Result<u64, Failed>
        ensures faults { self.new.faults ≡ self.old.faults }
        ensures syncs { self.new.syncs ≡ self.old.syncs }
    {
        self.open()?;
        let file = self.file.as_mut().ok_or(Failed)?;
        whole_len(file)
    }

    fn try_read_at(&mut self, at: u64, buf: &mut [u8]) -> Result<usize, Failed>
        ensures within { IfOk result (λ n. n ≤ length buf.new) }
        ensures faults { self.new.faults ≡ self.old.faults }
        ensures syncs { self.new.syncs ≡ self.old.syncs }
    {
        self.open()?;
        let file = self.file.as_mut().ok_or(Failed)?;
        go_to(file, at)?;
        read_whole(file, buf)
    }

    fn try_write_at(&mut self, at: u64, bytes: &[u8]) -> Result<(), Failed>
        ensures faults { self.new.faults ≡ self.old.faults }
        ensures syncs { self.new.syncs ≡ self.old.syncs }
    {
        self.open()?;
        let file = self.file.as_mut().ok_or(Failed)?;
        go_to(file, at)?;
        file.write_all(bytes).map_err(|_| Failed)
    }

    fn try_sync(&mut self) -> Result<(), Failed>
        ensures faults { self.new.faults ≡ self.old.faults }
        ensures syncs { self.new.syncs ≡ self.old.syncs }
    {
        self.open()?;
        let file = self.file.as_mut().ok_or(Failed)?;
        file.sync_all().map_err(|_| Failed)
    }
}

impl<R: Files> Readable for FileMedium<'_, R>
where
    R::File: AsRawFd,
{
    ghost told = { λ _. None };

    ghost faults = { λ m. m.faults };

    ghost syncs = { λ m. m.syncs };

    ghost may_leave = { λ _ _. Unit {0} };

    ghost moment = { λ _. 0 };

    ghost left_since = { λ _ _ _. Unit {0} };

    fn len(&mut self) -> Result<u64, Failed> {
        let outcome = self.try_len();
        count_fault(&mut self.faults, outcome)
    }

    fn read_at(&mut self, at: u64, buf: &mut [u8]) -> Result<usize, Failed> {
        let outcome = self.try_read_at(at, buf);
        count_fault(&mut self.faults, outcome)
    }

    ghost told_is_image = { λ _ _ _. tt };

    ghost now_counts = { λ _ _ _ _ _. tt };

    ghost only_now = { λ _ _ _. tt };
}

impl<R: Files> Medium for FileMedium<'_, R>
where
    R::File: AsRawFd,
{
    #[tactic(auto, using(crate::proofs::Torn::torn_anything))]
    fn write_at(&mut self, at: u64, bytes: &[u8]) -> Result<(), Failed> {
        let outcome = self.try_write_at(at, bytes);
        count_fault(&mut self.faults, outcome)
    }

    fn sync(&mut self) -> Result<(), Failed> {
        let outcome = self.try_sync();
        if outcome.is_ok() {
            self.syncs = self.syncs.saturating_add(1);
        }
        count_fault(&mut self.faults, outcome)
    }
}
