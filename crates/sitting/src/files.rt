// The files that a sitting reads and writes.
use inspection::most_read;
use sittings::{Reply, Sitting};
use std::io::{Read, Write};
use std::{fs, io};

// The front of a file, which is enough to answer it.
fn front(rt: &HostRuntime, path: &str) -> io::Result<Vec<u8>> {
    let mut bytes = Vec::new(rt.alloc());
    fs::open(rt, path)?
        .take(most_read() as u64)
        .read_to_end(&mut bytes)?;
    Ok(bytes)
}

// Replaces the problem by that of a file.
pub(crate) fn read(rt: &HostRuntime, sitting: &mut Sitting, path: &str) -> Reply {
    match front(rt, path) {
        Ok(bytes) => sitting.read(bytes.as_slice()),
        Err(_) => Reply::NoFile,
    }
}

// Writes the problem into a file.
pub(crate) fn write(rt: &HostRuntime, sitting: &Sitting, path: &str) -> Reply {
    let mut out = [0; 16_784];
    let reply = sitting.write(&mut out);
    let Reply::FileWritten(length) = reply else {
        return reply;
    };
    match out.get(..length) {
        Some(file) if fs::write(rt, path, file).is_ok() => reply,
        _ => Reply::NoFile,
    }
}
