// An open body.
use psos_words::Registers;

/// An open body: its registers, its code block's number, and how many of its lines are answered.
#[derive(Drop)]
pub struct Frame {
    pub regs: Registers,
    pub label: u8,
    pub line: u8,
}

impl Default for Frame {
    fn default() -> Frame {
        Frame {
            regs: Registers::zero(),
            label: 0,
            line: 0,
        }
    }
}
