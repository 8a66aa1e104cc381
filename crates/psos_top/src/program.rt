// The program.
ghost use Rattle.std.specs.Prelude.{◌≡◌, ◌≢◌, ◌↔◌, None, IfErr, map, string_bytes};
ghost use Rattle.std.specs.IoError.{error_kind};
ghost use Rattle.std.specs.Process.{exit_status};
ghost use Rattle.psos_top.specs.Words.{words_in, words_asked};
ghost use Rattle.psos_top.specs.Outcome.{stream, given_by, usage_text, Wrote};
ghost use Rattle.psos_top.specs.Program.{PrintsAsAsked, EndsAsAsked, StoreEndsAsAsked, ProgramEnds};

use crate::Command;
use crate::arguments::words_of;
use crate::ending::stop;
use crate::load::load_call;
use crate::outcome::Outcome;
use crate::run::run_call;
use crate::serial::serial_call;
use crate::turns::turns_call;
use crate::words::read_words;
use psos_io::{Gate, Sink, Source, Store};
use std::alloc::Global;
use std::env::Args;
use std::io;
use std::io::ErrorKind;
use std::process::ExitCode;
use std::sync::Wait;
use std::thread::Threads;

/// The program: the words of the command line, without its own name, say what is done (docs/program.md,
/// "Commands"). All output goes to the sink. The gate is told of the level calls and closes of `run`.
pub fn psos_main<R: Threads + Wait + Sync, I: Source, K: Sink, B: Store + Send, G: Gate + Sync>(
    rt: &R,
    alloc: Global,
    words: &[String],
    input: &mut I,
    output: &mut K,
    store: B,
    gate: &G,
) -> Outcome<B>
    // At 1, and only there, the words have not the shape, and nothing is read.
    ensures usage { (result.status ≡ 1) ↔ (words_asked (map string_bytes words.now) ≡ None) }
    ensures usage_text { result.status ≡ 1 →
        Wrote (K.took output.old) (K.took output.new) (K.faults output.old) (K.faults output.new) usage_text }
    ensures unread { result.status ≡ 1 → input.new ≡ input.old }

    // At 0, what was written is the output of the flat objects for the order that the entries record, which is the order
    // of the command.
    ensures printed { result.status ≡ 0 → PrintsAsAsked (map string_bytes words.now)
        (stream I.left I.faults input.old input.new) (stream K.took K.faults output.old output.new) (given_by (B.faults store) result) }

    // All statuses: without the shape the line of 1, and else how the command that is asked for ends.
    ensures ends { EndsAsAsked (map string_bytes words.now)
        (stream I.left I.faults input.old input.new) (stream K.took K.faults output.old output.new) (given_by (B.faults store) result) }

    // The store is in the levels, or handed back, or as it was until it was gone.
    ensures store { StoreEndsAsAsked (map string_bytes words.now) B.faults (B.faults store)
        (stream I.left I.faults input.old input.new) (stream K.took K.faults output.old output.new) result }
{
    let Some(asked) = read_words(words) else {
        return stop(
            alloc,
            output,
            1,
            b"usage: psos COMMAND [OPTION N]...\n",
            store.faults(),
        );
    };
    match asked.command {
        Command::Serial => serial_call(alloc, asked.frames, input, output, store),
        Command::Turns(seed) => turns_call(alloc, asked.frames, seed, input, output, store),
        Command::Run => run_call(rt, alloc, asked.frames, input, output, store, gate),
        Command::Load { users, lines, seed } => load_call(alloc, users, lines, seed, output, store),
    }
}

/// The program from its arguments to its exit code, which is the status. The first argument is the program's own name,
/// and the others are the words (docs/program.md, "Commands").
///
/// Arguments that the system cannot tell are no words, and the code is 1. Where there is no memory for them, the code is
/// 6, and nothing is read or written.
pub fn psos_program<R: Threads + Wait + Sync, I: Source, K: Sink, B: Store + Send, G: Gate + Sync>(
    rt: &R,
    alloc: Global,
    args: io::Result<Args>,
    input: &mut I,
    output: &mut K,
    store: B,
    gate: &G,
) -> ExitCode
    ensures ends { ProgramEnds (words_in args)
        (stream I.left I.faults input.old input.new) (stream K.took K.faults output.old output.new) (B.faults store) (exit_status result) }
    ensures memory { IfErr args (λ e. error_kind e ≡ ErrorKind.OutOfMemory → exit_status result ≡ 6) }
    ensures untold { IfErr args (λ e. error_kind e ≢ ErrorKind.OutOfMemory → exit_status result ≡ 1) }
{
    let Ok(words) = words_of(alloc, args) else {
        return ExitCode::from(6);
    };
    let outcome = psos_main(rt, alloc, &words, input, output, store, gate);
    ExitCode::from(outcome.status)
}
