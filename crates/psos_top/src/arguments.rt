// The arguments of the program.
ghost use Rattle.std.specs.Prelude.{◌≡◌, ◌≢◌, map, string_bytes, IfOk, IfErr, IsOk, IsErr};
ghost use Rattle.std.specs.Vec.Iter.{into_iter_items};
ghost use Rattle.std.specs.IoError.{error_kind};
ghost use Rattle.psos_top.specs.Words.{words_in};

use std::alloc::{AllocError, Global};
use std::env::Args;
use std::io;
use std::io::ErrorKind;

// The arguments that are left, in their order.
fn rest(alloc: Global, args: Args) -> Result<Vec<String>, AllocError>
    ensures { IfOk result (λ words. words.items ≡ into_iter_items args) }
{
    let mut args = args;
    let mut words = Vec::new(alloc);
    'arguments: while let Some(word) = args.next() {
        words.push(word)?;
    }
    Ok(words)
}

/// The words of the command line: the arguments behind the program's own name, in their order. Arguments that the
/// system cannot tell, such as bytes that are no text, are no words. `Err` only where memory runs out, here or in the
/// system.
pub(crate) fn words_of(alloc: Global, args: io::Result<Args>) -> Result<Vec<String>, AllocError>
    ensures words { IfOk result (λ words. map string_bytes words.items ≡ words_in args) }
    ensures memory { IfErr args (λ e. error_kind e ≡ ErrorKind.OutOfMemory → IsErr result) }
    ensures untold { IfErr args (λ e. error_kind e ≢ ErrorKind.OutOfMemory → IsOk result) }
{
    match args {
        Ok(args) => {
            let mut args = args;
            let _name = args.next();
            rest(alloc, args)
        }
        Err(e) if e.kind() == ErrorKind::OutOfMemory => Err(AllocError),
        Err(_) => Ok(Vec::new(alloc)),
    }
}
