use super::Went;
use super::side::free_port;
use px_outside::{Failed, Files, Sink, write_all};
use px_real::{FileSink, NoSink, RealFiles, StdoutSink};
use std::fs::remove_file;

type HostFiles = RealFiles<HostRuntime>;

#[test]
fn files_keep_what_sinks_write(rt: HostRuntime) -> Went {
    let port = free_port(&rt).unwrap_or(0);
    match format!(in rt.alloc(); "/tmp/px_real_{port}") {
        Ok(name) => file_keeps(&rt, name.as_str(), &mut RealFiles::new(rt)),
        Err(_) => Err("there is no memory for a name"),
    }
}

fn file_keeps(rt: &HostRuntime, name: &str, files: &mut HostFiles) -> Went {
    let path = name.as_bytes();
    if !writes_lines(rt, path) || !holds(rt, files, path, b"some lines\nand more\n") {
        return Err("a file does not keep its lines");
    }
    if FileSink::create(rt, path).is_err() || !holds(rt, files, path, b"") {
        return Err("a file that is there is not emptied");
    }
    if remove_file(rt, name).is_err() || !is_gone(rt, files, path) {
        return Err("a removed file can be read");
    }
    Ok(())
}

// Whether the sink takes the lines, and says that it keeps them.
fn writes_lines(rt: &HostRuntime, name: &[u8]) -> bool {
    match FileSink::create(rt, name) {
        Ok(mut sink) => {
            let first = write_all(&mut sink, b"some lines\n");
            let second = write_all(&mut sink, b"and more\n");
            first.is_ok() && second.is_ok() && sink.keeps()
        }
        Err(_) => false,
    }
}

fn holds(rt: &HostRuntime, files: &mut HostFiles, name: &[u8], bytes: &[u8]) -> bool {
    match files.read(rt.alloc(), name) {
        Ok(text) => text.as_bytes() == bytes,
        Err(_) => false,
    }
}

fn is_gone(rt: &HostRuntime, files: &mut HostFiles, name: &[u8]) -> bool {
    match files.read(rt.alloc(), name) {
        Ok(_) => false,
        Err(error) => error == Failed::Failed,
    }
}

#[test]
fn standard_output_keeps_and_no_sink_does_not(rt: HostRuntime) -> Went {
    let mut out = StdoutSink::new(rt);
    let written = write_all(&mut out, b"on standard output\n");
    if written.is_err() || !out.keeps() {
        return Err("standard output does not keep what it is given");
    }
    if NoSink.keeps() || NoSink.write(b"gone") != Ok(4) {
        return Err("no sink does not take all, or keeps it");
    }
    Ok(())
}
