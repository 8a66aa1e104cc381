// The line of a fault.
ghost use Rattle.std.specs.Prelude.{◌≡◌, ◌+◌, ◌≤◌, ◌++◌, length};
ghost use Rattle.arrayvec.specs.ArrayVec.{array_vec_len};
ghost use Rattle.psos_top.specs.Outcome.{fault_line as line_text};

use arrayvec::ArrayVec;
use itoa::Buffer;
use psos_script::ScriptFault;

// One piece more, for which there is room.
fn put(line: &mut ArrayVec<u8, 64>, piece: &[u8])
    requires room { array_vec_len line.old + length piece.now ≤ 64 }
    ensures items { line.new.items ≡ line.old.items ++ piece.now }
    ensures len { array_vec_len line.new ≡ array_vec_len line.old + length piece.now }
{
    match line.try_extend_from_slice(piece) {
        Ok(()) => {}
        Err(_) => unreachable!(),
    }
}

/// The line of a fault, as it is printed (docs/program.md, "Faults"). It takes no memory.
#[tactic(auto, using(std::proofs::lemmas::List::append_assoc))]
pub(crate) fn fault_line(fault: ScriptFault) -> ArrayVec<u8, 64>
    ensures { result.items ≡ line_text fault.line fault.cause }
{
    let mut digits = Buffer::new();
    let mut line = ArrayVec::new();
    put(&mut line, b"line ");
    put(&mut line, digits.format(fault.line).as_bytes());
    put(&mut line, b": ");
    put(&mut line, fault.cause.text());
    put(&mut line, b"\n");
    line
}
