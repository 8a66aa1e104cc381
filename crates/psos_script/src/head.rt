// The words that begin lines.
ghost use Rattle.std.specs.Prelude.{◌≡◌};
ghost use Rattle.psos_script.specs.Table.{head_of};

use crate::verb::Verb;

/// What a line's first word says.
#[derive(Clone, Copy, PartialEq, Eq, Debug)]
pub enum Head {
    Code,
    End,
    User,
    Phase,
    Asks(Verb),
}

impl Head {
    // What a first word says, if it begins a line.
    #[tactic(auto, unfolding(crate::specs::Table::head_of))]
    pub(crate) fn of(word: &[u8]) -> Option<Head>
        ensures { result ≡ head_of word.now }
    {
        match word {
            b"code" => Some(Head::Code),
            b"end" => Some(Head::End),
            b"user" => Some(Head::User),
            b"phase" => Some(Head::Phase),
            b"mint" => Some(Head::Asks(Verb::Mint)),
            b"restrict" => Some(Head::Asks(Verb::Restrict)),
            b"set" => Some(Head::Asks(Verb::Set)),
            b"move" => Some(Head::Asks(Verb::Move)),
            b"add" => Some(Head::Asks(Verb::Add)),
            b"read" => Some(Head::Asks(Verb::Read)),
            b"write" => Some(Head::Asks(Verb::Write)),
            b"window" => Some(Head::Asks(Verb::Window)),
            b"length" => Some(Head::Asks(Verb::Length)),
            b"lookup" => Some(Head::Asks(Verb::Lookup)),
            b"bind" => Some(Head::Asks(Verb::Bind)),
            b"unbind" => Some(Head::Asks(Verb::Unbind)),
            b"list" => Some(Head::Asks(Verb::List)),
            b"impl" => Some(Head::Asks(Verb::Impl)),
            b"mkseg" => Some(Head::Asks(Verb::MkSeg)),
            b"mkdir" => Some(Head::Asks(Verb::MkDir)),
            b"mktype" => Some(Head::Asks(Verb::MkType)),
            b"mkobj" => Some(Head::Asks(Verb::MkObj)),
            b"mkcode" => Some(Head::Asks(Verb::MkCode)),
            b"delete" => Some(Head::Asks(Verb::Delete)),
            b"send" => Some(Head::Asks(Verb::Send)),
            b"recv" => Some(Head::Asks(Verb::Recv)),
            b"call" => Some(Head::Asks(Verb::Call)),
            b"path" => Some(Head::Asks(Verb::Path)),
            b"find" => Some(Head::Asks(Verb::Find)),
            _ => None,
        }
    }
}
