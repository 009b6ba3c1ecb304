//! The program: `tv_trace A B --function NAME` explains the counterexample of one function of module B
//! against the same of module A.
//!
//! It passes the command line, the file system and standard output to `trace_run::run`, whose contract
//! says what is written and which status it answers, and exits with that status.
#![tactic(auto)]

use std::env;
use std::io::ErrorKind;
use std::process::ExitCode;
use trace_run::run;
use tv_io::{FileShelf, StandardSink, write_line};

fn main(rt: HostRuntime) -> ExitCode {
    let mut shelf = FileShelf::new(&rt);
    let mut out = StandardSink::new(&rt);
    let arguments: Vec<String> = match env::args(&rt) {
        Ok(arguments) => match arguments.collect(rt.alloc()) {
            Ok(arguments) => arguments,
            Err(_) => return ExitCode::from(8),
        },
        Err(error) if error.kind() == ErrorKind::OutOfMemory => return ExitCode::from(8),
        // An argument that is not UTF-8 makes no request.
        Err(_) => {
            let _ = write_line(&mut out, b"words refused", b"");
            return ExitCode::from(4);
        }
    };
    let status = run(rt.alloc(), arguments.as_slice(), &mut shelf, &mut out);
    ExitCode::from(status)
}
