// The register's file, read whole and replaced as a whole: a new file beside it, on disk before it takes the name. So whoever opens the
// register, at any time and after any crash, finds it as it was before some report or after it.
ghost use Rattle.std.specs.Prelude.{◌≤◌, ◌≡◌, ◌++◌, length, codes, IfOk, string_bytes};

use std::fs::{File, OpenFile, OpenOptions};
use std::io::{Eprint, Seek, Write};
use std::rt::Files;
use std::{fs, io};
use streams::{Said, or_said};

// Its path, short enough that ".new" and a 0 fit after it.
#[derive(Clone, Copy)]
pub(crate) struct RegisterFile<'a> {
    pub path: &'a str,
    ghost short: { length path.now ≤ 4091 },
}

impl RegisterFile<'_> {
    // No file has the name; what stands in the way is said.
    pub(crate) fn is_free<R: Files + Eprint + Alloc>(&self, rt: &R) -> Result<(), Said> {
        let what = "register_file: the register can't be made";
        if or_said(rt, what, fs::exists(rt, self.path))? {
            let line = "register_file: there is a file of that name, and it stays as it is";
            return Err(say(rt, line));
        }
        Ok(())
    }

    // How many bytes it has, as far as the register holds them, as `streams::read_full` tells it. It is opened to be written as well, so
    // that one that is write-protected stays as it is, and a pipe does not wait.
    pub(crate) fn read<R: Files + Eprint + Alloc>(
        &self,
        rt: &R,
        register: &mut [u8],
    ) -> Result<usize, Said>
        ensures { IfOk result (λ size. size ≤ length register.old) }
    {
        let opened = OpenOptions::new()
            .read(true)
            .write(true)
            .open(rt, self.path);
        let mut file = or_said(rt, "register_file: the register can't be opened", opened)?;
        let what = "register_file: the register is not a plain file";
        or_said(rt, what, file.stream_position())?;
        let read = streams::read_full(&mut file, register);
        or_said(rt, "register_file: the register can't be read", read)
    }

    // The register takes the old one's place, or the old one stays and why is said.
    pub(crate) fn write<R: Files + Eprint + Alloc>(
        &self,
        rt: &R,
        register: &[u8],
    ) -> Result<(), Said> {
        let what = "register_file: the new register can't be made";
        let made = or_said(rt, what, self.new_path(rt))?;
        let made = made.as_str();
        let done = self.replace(rt, made, register);
        if done.is_err() {
            let _ = fs::remove_file(rt, made);
            return done;
        }
        self.sync_folder(rt)
    }

    // The path with ".new" after it.
    fn new_path<R: Alloc>(&self, rt: &R) -> io::Result<String<R::A>>
        ensures bound { IfOk result (λ made. length (string_bytes made) ≤ 4095) }
        ensures text { IfOk result (λ made. string_bytes made ≡ self.now.path.now ++ codes ".new") }
    {
        let path = self.path;
        Ok(format!(in rt.alloc(); "{path}.new")?)
    }

    // The new file takes the old one's place.
    fn replace<R: Files + Eprint + Alloc>(
        &self,
        rt: &R,
        made: &str,
        register: &[u8],
    ) -> Result<(), Said> {
        make_new(rt, made, register)?;
        let what = "register_file: the new register can't take the old one's place";
        or_said(rt, what, fs::rename(rt, made, self.path))
    }

    // The new name is on disk.
    fn sync_folder<R: Files + Eprint + Alloc>(&self, rt: &R) -> Result<(), Said> {
        let what = "register_file: the register's folder can't be opened";
        let folder = or_said(rt, what, File::open(rt, self.folder()))?;
        let what = "register_file: the register's folder can't be synced";
        or_said(rt, what, folder.sync_all())
    }

    // With the slash after it.
    fn folder(&self) -> &str {
        let folder = self.path.trim_end_matches(|c| c != '/');
        if folder.is_empty() { "." } else { folder }
    }
}

pub(crate) fn say<R: Eprint>(rt: &R, line: &str) -> Said {
    let _ = rt.eprintln(line);
    Said
}

fn make_new<R: Files + Eprint + Alloc>(rt: &R, made: &str, register: &[u8]) -> Result<(), Said> {
    let _ = fs::remove_file(rt, made);
    let opened = OpenOptions::new()
        .write(true)
        .create_new(true)
        .open(rt, made);
    let mut file = or_said(rt, "register_file: the new register can't be made", opened)?;
    write_new(rt, &mut file, register)
}

// It is on disk.
fn write_new<R: Eprint + Alloc, F: Write + OpenFile>(
    rt: &R,
    file: &mut F,
    register: &[u8],
) -> Result<(), Said> {
    let what = "register_file: the new register can't be written";
    or_said(rt, what, file.write_all(register))?;
    let what = "register_file: the new register can't be synced";
    or_said(rt, what, file.sync_all())
}
