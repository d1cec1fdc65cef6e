//! The words that a program was started with.
use costs::OutOfMemory;
use std::env;
use std::io::ErrorKind;
use std::rt::Env;

/// The status of a program for which memory is wanted.
pub const NO_MEMORY: u8 = 5;

/// The words behind the program's name; `?` in place of arguments that the runtime refuses.
pub fn words(rt: &(impl Env + AllocGlobal)) -> Result<Vec<String>, OutOfMemory> {
    let alloc = rt.alloc();
    match env::args(rt) {
        Ok(args) => {
            let mut words = Vec::new(alloc);
            for word in args.skip(1) {
                words.push(word)?;
            }
            Ok(words)
        }
        Err(error) if error.kind() == ErrorKind::OutOfMemory => Err(OutOfMemory),
        Err(_) => {
            let mut words = Vec::new(alloc);
            words.push(String::from_str(alloc, "?")?)?;
            Ok(words)
        }
    }
}
