// A window becomes a group: one walk over the row of its day.
ghost use Rattle.std.specs.Prelude.{◌≡◌, length};
ghost use Rattle.tables.specs.Rows.{row_of};
ghost use Rattle.windows.specs.Window.{fits as fits_in, in_window};

use calendar::Period;

// Whether a period lies within the window.
fn fits(p: Period, from: u32, to: u32) -> bool
    ensures { result ≡ fits_in from to p }
{
    from <= p.start && p.end <= to
}

// The times of the day's periods that lie within the window, into a row of a table.
pub fn window_row(day: &[Option<Period>; 24], from: u32, to: u32, row: &mut [u8])
    requires day_len { length day.now ≡ 24 }
    requires row_len { length row.old ≡ 126 }
    ensures { row_of row.new ≡ in_window from to day.now }
{
    let mut n: usize = 0;
    for k in 0..24 {
        if let Some(p) = day[k] {
            row[1 + n] = p.time;
            n += usize::from(fits(p, from, to));
        }
    }
    row[0] = n as u8;
}
