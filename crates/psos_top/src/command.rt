// The commands.

/// A command (docs/program.md, "Commands").
#[derive(Clone, Copy)]
pub enum Command {
    /// Phase by phase, and in each phase user by user.
    Serial,
    /// In turns, which are drawn from this seed.
    Turns(u64),
    /// Each user's requests by a thread of its own.
    Run,
    /// In turns too, of a script that is made from this seed: it has so many users, each with so many lines.
    Load { users: u8, lines: u16, seed: u64 },
}
