// Rows of a caller in arrays as long as the largest degree.
ghost use Rattle.std.specs.Prelude.{◌≡◌, ◌-◌, ◌≤◌, ◌++◌, length, drop, replicate, pos};

// Writes a row over the first places of a longer one.
fn copy(row: &[i16], out: &mut [i16])
    requires { length row.now ≤ length out.old }
    ensures { out.new ≡ row.now ++ drop (length row.now) out.old }
{
    out[0..row.len()].copy_from_slice(row);
}

// The row, with zeros past its end.
pub fn padded(row: &[i16]) -> [i16; 1024]
    requires { length row.now ≤ 1024 }
    ensures { result ≡ row.now ++ replicate (1024 - length row.now) (pos 0) }
{
    let mut places = [0; 1024];
    copy(row, &mut places);
    places
}
