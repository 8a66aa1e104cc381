// Values that may go to another thread.
use std::marker::Send;

/// Takes only what may be handed to another thread.
pub fn crosses<X: Send>(_value: &X) {}
