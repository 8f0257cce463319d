// Which functions lead to which.
ghost use Rattle.std.specs.Prelude.{◌≡◌, ◌≤◌, ◌<◌, length};
ghost use Rattle.call_groups.specs.Read.{rows_of};
ghost use Rattle.call_groups.specs.Sets.{has};
ghost use Rattle.call_groups.specs.Table.{column, through_row, through, through_all};

use crate::function_set::FunctionSet;

/// Where a set has a function, it gets all to which that function leads.
fn follow(row: &mut FunctionSet, fun: usize, led: &FunctionSet)
    ensures { has row.new ≡ through_row fun (has led.now) (has row.old) }
{
    if row.contains(fun) {
        row.insert_all(led);
    }
}

/// Follows a function in each set.
fn follow_all(rows: &mut [FunctionSet], fun: usize)
    requires { fun < length rows.old }
    ensures { rows_of rows.new ≡ through fun (rows_of rows.old) }
{
    let led = rows[fun];
    for row in rows.iter_mut() {
        follow(row, fun, &led);
    }
}

/// Makes of what each function calls what each function leads to.
pub fn close(rows: &mut [FunctionSet])
    ensures { rows_of rows.new ≡ through_all (length rows.old) (rows_of rows.old) }
{
    for fun in 0..rows.len() {
        follow_all(rows, fun);
    }
}

/// The functions that lead to a function.
pub fn leading_to(leads: &[FunctionSet], fun: usize) -> FunctionSet
    requires { length leads.now ≤ 256 }
    ensures { has result ≡ column (rows_of leads.now) fun }
{
    let mut set = FunctionSet::empty();
    for (from, row) in leads.iter().enumerate() {
        if row.contains(fun) {
            set.insert(from);
        }
    }
    set
}
