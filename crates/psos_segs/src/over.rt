// Windows by the segment that they are over.
use psos_calls::WinRow;
use psos_counts::Class;

// Each window is of the class of its segment.
pub(crate) struct Over;

impl Class<WinRow> for Over {
    ghost use Rattle.std.specs.Prelude.{Some};

    ghost class = { λ w. Some w.seg.0 };

    fn class_of(row: &WinRow) -> Option<u64> {
        Some(row.seg.0)
    }
}
