//! The program: `tv check A B` with options judges the functions of module B against those of module A.
//!
//! It passes the command line, the file system and standard output to `tv_run::run`, whose contract says
//! what is written and which status it answers, and exits with that status.
#![tactic(auto)]

use pair_driver::OpenGate;
use std::env;
use std::io::ErrorKind;
use std::process::ExitCode;
use tv_io::{FileShelf, StandardSink, write_line};
use tv_run::run;

fn main(rt: HostRuntime) -> ExitCode {
    let mut shelf = FileShelf::new(&rt);
    let mut out = StandardSink::new(&rt);
    let arguments: Vec<String> = match env::args(&rt) {
        Ok(arguments) => match arguments.collect(rt.alloc()) {
            Ok(arguments) => arguments,
            Err(_) => return ExitCode::from(8),
        },
        Err(error) if error.kind() == ErrorKind::OutOfMemory => return ExitCode::from(8),
        // An argument that is not UTF-8 asks for no job.
        Err(_) => {
            let _ = write_line(&mut out, b"words refused", b"");
            return ExitCode::from(4);
        }
    };
    let mut judged = Vec::new(rt.alloc());
    let status = run(
        &rt,
        arguments.as_slice(),
        &mut shelf,
        &mut out,
        &OpenGate,
        &mut judged,
    );
    ExitCode::from(status)
}
