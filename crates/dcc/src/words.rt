// The words of the command line.
use dc_core::Name;
use std::alloc::{Alloc, AllocError, Global};
use std::rt::Env;
use std::{env, io};

/// The words of the command line without the program's name; none where one of them isn't UTF-8.
pub fn words<R: Env + Alloc>(rt: &R, alloc: Global) -> Result<Vec<Name>, AllocError> {
    let mut words = Vec::new(alloc);
    match env::args(rt) {
        Ok(args) => {
            for word in args.skip(1) {
                words.push(Name::copied(alloc, word.as_bytes())?)?;
            }
            Ok(words)
        }
        Err(error) => {
            if error.kind() == io::ErrorKind::OutOfMemory {
                return Err(AllocError);
            }
            Ok(words)
        }
    }
}
