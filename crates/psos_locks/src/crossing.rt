// What threads share, and what they are handed.
use crate::locks::Locks;
use crate::run::Run;
use crate::user::UserState;
use psos_io::Store;

fn shared<X: Sync>(_x: &X) {}

fn handed<X: Send>(_x: &X) {}

/// The locks of a run can be shared by threads, and the state of a user can be handed to one.
pub fn crosses<T: Run + Send, B: Store + Send>(locks: &Locks<T, B>, user: &UserState<T>) {
    shared::<Locks<T, B>>(locks);
    handed::<UserState<T>>(user);
}
