// The text that the program is given.
use crate::fault::Fault;
use std::io::Read;
use std::{env, fs, io};

// The text of the file that the only argument names, or of standard input.
pub(crate) fn read_text(rt: &HostRuntime) -> Result<Vec<u8>, Fault> {
    let mut args = env::args(rt)?;
    let _program = args.next();
    match args.next() {
        None => read_stdin(rt),
        Some(name) => {
            if args.next().is_some() {
                return Err(Fault::Arguments);
            }
            read_file(rt, name)
        }
    }
}

fn read_stdin(rt: &HostRuntime) -> Result<Vec<u8>, Fault> {
    let mut text = Vec::new(rt.alloc());
    match rt.stdin().read_to_end(&mut text) {
        Ok(_) => Ok(text),
        Err(e) => Err(unread(e, String::from_str(rt.alloc(), "standard input")?)),
    }
}

fn read_file(rt: &HostRuntime, name: String) -> Result<Vec<u8>, Fault> {
    match fs::read(rt, name.as_str()) {
        Ok(text) => Ok(text),
        Err(e) => Err(unread(e, name)),
    }
}

// (`From` would have no name to carry.)
fn unread(e: io::Error, name: String) -> Fault {
    match e.kind() {
        io::ErrorKind::OutOfMemory => Fault::Memory,
        _ => Fault::Unread(name),
    }
}
