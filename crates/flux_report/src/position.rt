// The line and the column of a place.
ghost use Rattle.std.specs.Prelude.{◌≡◌, ◌-◌, ◌^◌, ◌<◌, length};
ghost use Rattle.flux_report.specs.Positions.{line_of_place, column_of_place};

/// The line and the column of the byte at a place, for a person: both count from 1, and a column is
/// a byte. A place behind the bytes is taken as their end.
pub fn line_and_column(bytes: &[u8], place: u32) -> (u32, u32)
    requires short { length bytes.now < 2 ^ 32 - 1 }
    ensures line { result.0 ≡ line_of_place bytes.now place }
    ensures column { result.1 ≡ column_of_place bytes.now place }
{
    let mut line = 1;
    let mut column = 1;
    for &byte in &bytes[..bytes.len().min(place as usize)] {
        if byte == b'\n' {
            line += 1;
            column = 1;
        } else {
            column += 1;
        }
    }
    (line, column)
}
