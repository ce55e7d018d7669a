// Rows in a model: the clauses of a cell are all true where its variable has its gate's value.
#![tactic(auto)]

ghost use Rattle.std.specs.Prelude.{◌≡◌, true, ◌&&◌, ◌||◌, suc, ◌+◌, ◌-◌, ◌≤◌, ◌<◌};
ghost use Rattle.std.specs.Bool.{beq};
ghost use Rattle.scope.specs.Cnf.{bit, lit};
ghost use Rattle.sink.specs.World.{row_over};
ghost use Rattle.row_value.specs.Evaluate.{right_with, Right, row_count};

// The literal in column j of the row above; above the first row it is false.
fn column_true(model: &[u8], prev: u32, j: u32) -> bool
    requires { prev + j < 1073741824 }
    ensures { result ≡ lit (bit model.now) (row_over prev (suc j)) }
{
    if prev == 0 {
        return false;
    }
    sink::judge::variable_true(model, (prev + j) as usize)
}

// The literal w columns before; it is true where the weight reaches the column.
fn before_true(model: &[u8], w: u32, prev: u32, j: u32) -> bool
    requires { prev + j < 1073741824 }
    ensures { result ≡ lit (bit model.now) (row_over prev (suc j - w)) }
{
    if j < w {
        return true;
    }
    column_true(model, prev, j - w)
}

// Whether the cell in column j of the row at first has its gate's value, where t is the truth of the row's literal: it is true
// where the literal above it is, or the row's literal is and the one w columns before that.
fn cell_right(model: &[u8], t: bool, w: u32, prev: u32, first: u32, j: u32) -> bool
    requires { (first + j < 1073741824) × (prev + j < 1073741824) }
    ensures { result ≡ right_with (bit model.now) t w prev first j }
{
    let a = column_true(model, prev, j);
    let b = before_true(model, w, prev, j);
    let c = sink::judge::variable_true(model, (first + j) as usize);
    c == (a || t && b)
}

// Whether every cell of a row has its gate's value.
pub fn row_right(model: &[u8], x: u32, w: u32, prev: u32, first: u32, cols: u32) -> bool
    requires { (first + cols ≤ 1073741824) × (prev + cols ≤ 1073741824) }
    ensures { result ≡ true → Right (bit model.now) x w prev first cols }
{
    let t = sink::judge::literal_true(model, x);
    for j in 0..cols {
        if !cell_right(model, t, w, prev, first, j) {
            return false;
        }
    }
    true
}

// How many clauses a row has.
pub fn row_clauses(w: u32, prev: u32, cols: u32) -> usize
    requires { cols ≤ 1073741824 }
    ensures { result ≡ row_count w prev cols }
{
    let n = cols as usize;
    if prev == 0 {
        return 2 * n;
    }
    4 * n - (w as usize).min(n)
}
