// Whether a page has room.
ghost use Rattle.std.specs.Prelude.{◌≡◌, ◌*◌, if◌then◌else◌, Some, None, nat_lt};

// The length of a page of so many rows of one width, or none where it has no room.
pub(crate) fn page_length(width: usize, rows: usize, room: usize) -> Option<usize>
    ensures { result ≡ (if nat_lt room (width * rows) then None else Some (width * rows)) }
{
    width.checked_mul(rows).filter(|total| *total <= room)
}
