ghost use Rattle.std.specs.Prelude.{◌≡◌, ◌≤◌, None, length, IfOk};

use crate::counted::count_fault;
use crate::real_file::{open_apart, read_some};
use medium::{Failed, Source};
use std::fs::File;
use std::os::fd::AsRawFd;
use std::rt::Files;

/// A file that is read from its start to its end, opened at the first call. Without a path each call fails.
#[derive(Drop)]
pub struct FileSource<'a, R: Files> {
    rt: &'a R,
    path: Option<&'a str>,
    file: Option<R::File>,
    faults: u64,
}

impl<'a, R: Files> FileSource<'a, R>
where
    R::File: AsRawFd,
{
    pub fn new(rt: &'a R, path: Option<&'a str>) -> Self {
        FileSource {
            rt,
            path,
            file: None,
            faults: 0,
        }
    }

    fn try_read(&mut self, buf: &mut [u8]) -> Result<usize, Failed>
        ensures within { IfOk result (λ n. n ≤ length buf.new) }
        ensures count { self.new.faults ≡ self.old.faults }
    {
        if self.file.is_none() {
            let path = self.path.ok_or(Failed)?;
            self.file = Some(open_apart(self.rt, path, File::options().read(true))?);
        }
        let file = self.file.as_mut().ok_or(Failed)?;
        read_some(file, buf)
    }
}

impl<R: Files> Source for FileSource<'_, R>
where
    R::File: AsRawFd,
{
    ghost left = { λ _. None };

    ghost faults = { λ s. s.faults };

    fn read(&mut self, buf: &mut [u8]) -> Result<usize, Failed> {
        let outcome = self.try_read(buf);
        count_fault(&mut self.faults, outcome)
    }
}
