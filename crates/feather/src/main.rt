//! The program: `feather play` plays a script from standard input to standard output; `feather crew` has threads change
//! blocks while others write them.
//!
//! `fst_program` says what it does with its words, and with which status it ends.
#![tactic(auto)]

use fst_program::status::{carry_out, stopped};
use std::io::BufWriter;
use std::process::ExitCode;
use std::{env, io};

fn all_words(rt: &HostRuntime) -> io::Result<Vec<String>> {
    Ok(env::args(rt)?.collect(rt.alloc())?)
}

fn main(rt: HostRuntime) -> ExitCode {
    let mut err = rt.stderr();
    let Ok(words) = all_words(&rt) else {
        return ExitCode::from(stopped(&mut err));
    };
    let Ok(texts) = words
        .iter()
        .map(|w| w.as_str())
        .collect::<Vec<&str>>(rt.alloc())
    else {
        return ExitCode::from(stopped(&mut err));
    };
    let Ok(mut out) = BufWriter::new(rt.alloc(), io::writer(&rt)) else {
        return ExitCode::from(stopped(&mut err));
    };
    let mut reader = rt.reader();
    let status = carry_out(&rt, rt.alloc(), &texts, &mut reader, &mut out, &mut err);
    // What is left after a write that failed is not tried again.
    let _ = out.into_parts();
    ExitCode::from(status)
}
