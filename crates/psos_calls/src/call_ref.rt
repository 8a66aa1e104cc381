// A call that lies somewhere else.
ghost use Rattle.std.specs.Prelude.{◌≡◌, length};
ghost use Rattle.psos_calls.specs.Levels.{level_of};
ghost use Rattle.psos_calls.specs.Levels.Level7.{reads_page};
ghost use Rattle.psos_calls.specs.Plan.Asked.{kind_asked};
ghost use Rattle.psos_calls.specs.Plan.Kept.{call_of, IsAmong};

use crate::kept_call::KeptCall;
use crate::{Level, LevelCall};
use psos_caps::Uid;
use psos_words::Word;
use std::marker::Model;

/// A call that is lent, as a step of a trace tells it. It is seen as the call.
#[derive(Drop)]
pub struct CallRef<'a> {
    kept: &'a KeptCall,
    words: &'a [Word],
}

impl<'a> Model for CallRef<'a> {
    ghost use Rattle.psos_calls.specs.Levels.Calls.{LevelCall};
    ghost use Rattle.psos_calls.specs.Plan.Kept.{call_of};

    ghost Value = { LevelCall };

    ghost view = { λ c. call_of c.words.now c.kept.now };
}

impl<'a> CallRef<'a> {
    // The call that is kept so, with its words among these.
    #[inline(always)]
    pub(crate) fn of(kept: &'a KeptCall, words: &'a [Word]) -> CallRef<'a>
        ensures { result ≡ call_of words.now kept.now }
    {
        CallRef { kept, words }
    }

    /// Whether it reads a page.
    #[inline]
    pub fn reads_page(&self) -> bool
        ensures { result ≡ reads_page self.now }
    {
        match self.kept {
            LevelCall::PageGet { .. } => true,
            _ => false,
        }
    }

    /// The object whose kind is asked. None exactly where the call asks for no kind.
    #[inline]
    pub fn kind_asked(&self) -> Option<Uid>
        ensures { result ≡ kind_asked self.now }
    {
        match self.kept {
            LevelCall::KindOf { uid } => Some(*uid),
            _ => None,
        }
    }

    /// Its level.
    #[inline(always)]
    pub fn level(&self) -> Level
        ensures { result ≡ level_of self.now }
    {
        match self.kept {
            LevelCall::Hold13 => Level::L13,
            LevelCall::Admit { .. } => Level::L13,
            LevelCall::CodeMake { .. } => Level::L13,
            LevelCall::Enter { .. } => Level::L13,
            LevelCall::CodeGone { .. } => Level::L13,
            LevelCall::Post { .. } => Level::L12,
            LevelCall::Draw { .. } => Level::L12,
            LevelCall::Hold11 => Level::L11,
            LevelCall::Room => Level::L11,
            LevelCall::Enrol { .. } => Level::L11,
            LevelCall::KindOf { .. } => Level::L11,
            LevelCall::Forget { .. } => Level::L11,
            LevelCall::DirAt { .. } => Level::L10,
            LevelCall::DirMake { .. } => Level::L10,
            LevelCall::DirGone { .. } => Level::L10,
            LevelCall::RepOf { .. } => Level::L9,
            LevelCall::TypeAt { .. } => Level::L9,
            LevelCall::TypeMake { .. } => Level::L9,
            LevelCall::ObjMake { .. } => Level::L9,
            LevelCall::Impl { .. } => Level::L9,
            LevelCall::ObjGone { .. } => Level::L9,
            LevelCall::TypeGone { .. } => Level::L9,
            LevelCall::Locate { .. } => Level::L8,
            LevelCall::SlotOf { .. } => Level::L8,
            LevelCall::SegMake { .. } => Level::L8,
            LevelCall::SegGone { .. } => Level::L8,
            LevelCall::WinRoom { .. } => Level::L8,
            LevelCall::WinMake { .. } => Level::L8,
            LevelCall::Length { .. } => Level::L8,
            LevelCall::PageTake => Level::L7,
            LevelCall::PageDrop { .. } => Level::L7,
            LevelCall::WordGet { .. } => Level::L7,
            LevelCall::WordPut { .. } => Level::L7,
            LevelCall::PageGet { .. } => Level::L7,
            LevelCall::FourPut { .. } => Level::L7,
            LevelCall::Fresh => Level::L0,
        }
    }
}
