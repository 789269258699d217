//! A journal over the cache, as its user writes one.
//!
//! With no word the program plays the guides, over slots in memory, and transfers over slots that fail. With the name of a
//! file it keeps accounts there, and makes the transfers that it reads from standard input: a line `FROM TO AMOUNT` each.
//!
//! Its parts stand in `journal_parts` and `journal_calls`, so that neither their planted bugs nor their tests take another
//! proof of the whole.
#![tactic(auto)]

use journal_parts::{StoreFault, groups, guide, keep, transfers};
use std::process::ExitCode;
use std::{env, io};

const HELP: &str = "journal_demo         plays the guides, and transfers over slots that fail
journal_demo FILE    keeps six accounts in the file, and makes the transfers of standard input:
                     a line FROM TO AMOUNT each, accounts counted from 0
";

fn carry_out(rt: &HostRuntime) -> Result<(), StoreFault> {
    let words: Vec<String> = env::args(rt)?.collect(rt.alloc())?;
    match words.get(1) {
        None => {
            let mut out = io::writer(rt);
            guide::guide(rt.alloc(), &mut out)?;
            groups::groups(rt.alloc(), &mut out)?;
            transfers(rt.alloc(), &mut out)
        }
        Some(word) => {
            let word = word.as_str();
            if word == "--help" || word == "-h" {
                print!(rt; "{HELP}")?;
                return Ok(());
            }
            keep(rt, word)
        }
    }
}

fn main(rt: HostRuntime) -> ExitCode {
    match carry_out(&rt) {
        Ok(()) => ExitCode::SUCCESS,
        Err(fault) => {
            // Where even this cannot be written, the status tells.
            let _ = eprintln!(rt; "journal_demo: {fault}");
            ExitCode::FAILURE
        }
    }
}
