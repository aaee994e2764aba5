// Lists devicetree blobs.
#![tactic(auto)]

use listing::page::list;
use std::io::Write;
use std::{env, fs, io};

const USAGE: &str = "usage: dtstack list FILE...";

// Prints what there is to say of one file.
fn list_file(rt: &HostRuntime, file: &str) -> io::Result<()> {
    match fs::read(rt, file) {
        Ok(bytes) => {
            let page = list(rt.alloc(), file, bytes.as_slice())?;
            rt.stdout().write_all(page.as_slice())
        }
        Err(why) => println!(rt; "{file}: cannot be read: {why}"),
    }
}

fn main(rt: HostRuntime) -> io::Result<()> {
    let mut args = env::args(&rt)?.skip(1);
    let lists = args
        .next()
        .is_some_and(|command| command.as_str() == "list");
    let mut files = args.peekable();
    if !lists || files.peek().is_none() {
        return println!(rt; "{USAGE}");
    }
    for file in files {
        list_file(&rt, file.as_str())?;
    }
    Ok(())
}
