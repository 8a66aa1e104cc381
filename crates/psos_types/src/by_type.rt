// Objects by their type.
ghost use Rattle.std.specs.Option.{option_map};

use psos_calls::ObjRow;
use psos_counts::Class;

/// An object is of the class of its type. A directory has no class.
#[derive(Drop)]
pub(crate) struct ByType;

impl Class<ObjRow> for ByType {
    ghost class = { λ o. option_map (λ t. t.0) o.of };

    fn class_of(row: &ObjRow) -> Option<u64> {
        match row.of {
            Some(of) => Some(of.0),
            None => None,
        }
    }
}
