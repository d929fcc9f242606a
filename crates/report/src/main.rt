// Reads a study from standard input, in pieces as they come, and prints its report (document 01, "The specimen study").
#![tactic(auto)]

use std::io;

fn main(rt: HostRuntime) {
    match feeding::read_study(&mut rt.stdin()) {
        Ok(Some(taken)) => {
            if feeding::write_report(&mut io::writer(&rt), taken).is_err() {
                let _ = eprintln!(rt; "the report could not be written");
            }
        }
        Ok(None) => {
            let _ = eprintln!(rt; "standard input does not end");
        }
        Err(_) => {
            let _ = eprintln!(rt; "standard input could not be read");
        }
    }
}
