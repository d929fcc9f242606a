// Prints the report of each study that an argument names, one after the other. The file `stdout` is the files `data/NAME.expected`, joined in the order of the arguments.
#![tactic(auto)]

use std::fs::File;
use std::io;
use std::rt::Files;

// Says on standard error why a file is not read, and prints a line that no report has.
fn not_read(rt: &(impl Print + Eprint), name: &str, why: io::Error) {
    files::fail(rt, name, why);
    let _ = println!(rt; "not read");
}

// Prints the report of the study in a file, as far as it can be written.
fn print_file<R: io::Read>(rt: &(impl Print + Eprint), file: &mut R, name: &str) {
    match feeding::read_small_study(file) {
        Ok(Some(taken)) => {
            if feeding::write_report(&mut io::writer(rt), taken).is_err() {
                let _ = eprintln!(rt; "a report could not be written");
            }
        }
        Ok(None) => not_read(rt, name, io::Error::from(io::ErrorKind::FileTooLarge)),
        Err(why) => not_read(rt, name, why),
    }
}

fn print_named(rt: &(impl Files + Print + Eprint), name: &str) {
    match File::open(rt, name) {
        Ok(mut file) => print_file(rt, &mut file, name),
        Err(why) => not_read(rt, name, why),
    }
}

fn main(rt: HostRuntime) {
    let mut path = [0u8; files::MOST_BYTES];
    for i in 1..usize::MAX {
        match files::argument(&rt, i, &mut path) {
            Some(Ok(name)) => print_named(&rt, name),
            Some(Err(why)) => not_read(&rt, "argument", why),
            None => break,
        }
    }
}
