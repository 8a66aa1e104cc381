// A script.
ghost use Rattle.std.specs.Prelude.{◌≡◌, slice_get};
ghost use Rattle.psos_calls.specs.Language.Script.{body_of, user_script, requests_of};

use crate::{Code, Request, UserText};
use std::marker::Model;

/// A script: its users in order, and its code blocks, numbered from 0. It is seen as those two lists.
#[derive(Drop)]
pub struct Script {
    users: Vec<UserText>,
    codes: Vec<Code>,
}

impl Model for Script {
    ghost use Rattle.psos_calls.specs.Language.Script.{Script};

    ghost Value = { Script };

    ghost view = { λ s. record { users = s.users.items; codes = s.codes.items } };
}

impl Script {
    pub fn new(users: Vec<UserText>, codes: Vec<Code>) -> Script
        ensures users { result.users ≡ users.items }
        ensures codes { result.codes ≡ codes.items }
    {
        Script { users, codes }
    }

    /// The users, in order.
    pub fn users(&self) -> &[UserText]
        ensures { result.now ≡ self.now.users }
    {
        &self.users
    }

    /// The code blocks, in order.
    pub fn codes(&self) -> &[Code]
        ensures { result.now ≡ self.now.codes }
    {
        &self.codes
    }

    /// The lines of code block `label`; none where there is no such block.
    pub fn body(&self, label: u8) -> &[Request]
        ensures { result.now ≡ body_of self.now label }
    {
        match self.codes.get(label as usize) {
            Some(code) => code.body(),
            None => &[],
        }
    }

    /// Request k of a user, counted from 0 over its phases.
    pub fn request(&self, user: u8, k: usize) -> Option<Request>
        ensures { result ≡ slice_get (requests_of (user_script self.now user)) k }
    {
        match self.users.get(user as usize) {
            Some(text) => text.request(k),
            None => None,
        }
    }
}
